//! The walk over pairs of types that decides identity, over the nodes of an arena and whatever reads the two sides.
#![tactic(auto)]

mod answers;
mod comparing;
mod sides;
mod turns;
mod visits;

pub use answers::{IdFault, Verdict};
pub use comparing::compare;
pub use sides::Sides;

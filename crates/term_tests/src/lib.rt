//! The tests of a term: no alias in it mentions itself, and it holds no interface but the empty one.
#![tactic(auto)]

mod mentioning;
mod sides;
mod walking;

pub use walking::{no_cycle, ordered_aliases};

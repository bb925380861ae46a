//! The codes under which a package is refused, in the order in which they count.
#![tactic(auto)]

mod codes;
mod laws;

pub use codes::Code;
pub use laws::one_outcome;

//! The first reference of a declaration that dangles: nothing that may be used so stands behind its name.
#![tactic(auto)]

mod dangling;
mod fault;

pub use dangling::first_dangling;
pub use fault::AskFault;

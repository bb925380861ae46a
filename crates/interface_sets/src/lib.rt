//! The type set of a type, over an environment.
#![tactic(auto)]

mod sets;

pub use sets::{TypeSet, type_set};

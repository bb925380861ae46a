//! The basic type of a type over an environment: the predeclared type to which its name comes down.
#![tactic(auto)]

mod following;
mod heads;
mod laws;

pub use following::basic_type;
pub use laws::{a_basic_type_meets_no_fault, as_many_heads_as_names_are_enough, one_basic_type};

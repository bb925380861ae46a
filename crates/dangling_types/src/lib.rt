//! The first reference that dangles in each type of an arena: many declarations are looked at, and each type once.
#![tactic(auto)]

mod finding;
mod findings;
mod laws;
mod looking;
mod reaching;
mod roles;

pub use finding::{Finding, name_at};
pub use findings::Findings;
pub use laws::the_first_that_dangles;
pub use roles::Roles;

//! The terms of a type set, from what came to the elements of the interfaces that were opened for it.
#![tactic(auto)]

mod folding;
mod meeting;
mod shares;

pub use folding::set_terms;

//! The terms that two elements of an interface leave together, whatever tells whether a term covers another one.
#![tactic(auto)]

mod covering;
mod meeting;

pub use covering::Covering;
pub use meeting::common_terms;

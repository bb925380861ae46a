//! Both tests of a term: no alias in it mentions itself, and it holds no interface but the empty one.
#![tactic(auto)]

mod breaches;
mod looking;
mod opening;
mod summaries;
mod testing;

pub use testing::whole;

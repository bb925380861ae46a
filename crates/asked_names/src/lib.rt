//! What the names are that are asked for, over any environment.
#![tactic(auto)]

mod counting;
mod finding;

pub use counting::count_declared;
pub use finding::{Found, find_all};

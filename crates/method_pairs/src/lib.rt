//! The pairs of methods of one key that a type has, over an environment.
#![tactic(auto)]

mod opening;
mod pairs;

pub use opening::open_type;
pub use pairs::method_pairs;

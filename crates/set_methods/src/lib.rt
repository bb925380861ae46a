//! The methods of a type set by their keys: the first of each key counts, and the others make pairs with it.
#![tactic(auto)]

mod keys;
mod pairs;
mod sets;

pub use keys::MethodKey;
pub use pairs::{MethodPair, pairs_among};
pub use sets::first_of_each;

//! The bytes that Go's string literals stand for.
#![tactic(auto)]

mod escapes;
mod literals;

pub use literals::{each_has_value, one_value, unquoted};

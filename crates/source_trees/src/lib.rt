//! The trees of a Go file with texts in the place of spans, and with the values of its literals.
#![tactic(auto)]

mod constants;
mod laws;
mod literals;

pub use constants::repeated;
pub use laws::{each_literal, one_literal, what_is_repeated};
pub use literals::{Literal, literal_value, text};

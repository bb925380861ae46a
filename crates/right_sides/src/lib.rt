//! The right sides of the aliases that a type mentions.
#![tactic(auto)]

mod reading;
mod rights;

pub use reading::right_sides;
pub use rights::{Right, Rights};

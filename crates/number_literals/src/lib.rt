//! The values of Go's integer and rune literals.
#![tactic(auto)]

mod digits;
mod faults;
mod runes;
mod wholes;

pub use faults::ValueFault;
pub use runes::{each_rune, one_rune, rune};
pub use wholes::{each_whole, one_whole, whole};

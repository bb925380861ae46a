//! The parts of an open file, as its readers take them: where its sections are, and the paths of its index, by halves.
//! docs/FORMAT.md has the rules in words, `specs/` has them as definitions.
#![tactic(auto)]

mod parts;
mod search;
mod spans;

pub use parts::{FileForm, Parts};
pub use search::{Titled, find_titled};
pub use spans::{TextSpan, text_of};

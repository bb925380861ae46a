//! The walk in the order of writing, where what was written isn't gone through again.
#![tactic(auto)]

mod declaring;
mod entering;
mod finishing;
mod labels;
mod laws;
mod mentions;
mod section;
mod steps;
mod walking;

pub use laws::{the_whole_walk_is_the_layout, what_was_written_is_skipped};
pub use section::Section;

//! What a type that covers wants of another one at one level.
#![tactic(auto)]

mod laws;
mod steps;
mod unions;

pub use laws::a_type_covers_level_by_level;
pub use steps::{Step, step_of};

//! Positions of full files and bundles, read and written. A position is spelled by what has changed since the one
//! before it in the same block: the column alone, the column and the line, or column, line and file. docs/FORMAT.md has
//! the rules in words, `specs/` has them as definitions.
#![tactic(auto)]

mod deltas;
mod laws;
mod previous;
mod reading;
mod writing;

pub use laws::{one_position_spelling, positions_are_local};
pub use previous::PrevPos;
pub use reading::read_full;
pub use writing::write_full;

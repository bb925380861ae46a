//! The lines of a source file, and the line and column of each of its places.
#![tactic(auto)]

mod lines;

pub use lines::{LineColumn, SIZE_LIMIT, SourceLines, each_start, lines_of, one_position};

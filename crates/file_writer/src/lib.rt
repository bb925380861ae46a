//! Writing a full file from its texts, its data section and its index.
#![tactic(auto)]

mod writing;

pub use writing::{IndexEntry, IndexPackage, write_file};

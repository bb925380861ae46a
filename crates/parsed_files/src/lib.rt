//! The trees of the files of a package, or the first of all faults of their tokens and their syntax.
#![tactic(auto)]

mod faults;
mod files;
mod first_faults;

pub use faults::FileFault;
pub use files::parse_files;

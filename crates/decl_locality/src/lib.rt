//! That reading a declaration depends only on the bytes up to where it ends, or up to where its fault is met.
#![tactic(auto)]

mod laws;

pub use laws::{blocks_are_local, declarations_are_local, descriptors_end_early};

//! The index of a full file of export data: which packages and names it lists, and where each declaration starts.
#![tactic(auto)]

mod full;
mod image;
mod laws;
mod limits;
mod lookup;
mod records;

pub use image::{Image, read_full_file};
pub use laws::{breaches_are_local, file_or_breach, listed_once};
pub use limits::FILE_LIMIT;

//! Places in the files of a package, the first of those that are found, and the refusal that comes of rules with codes.
#![tactic(auto)]

mod laws;
mod places;
mod stages;

pub use laws::{Codes, at_most_one_refusal, each_least, joining, some_outcome};
pub use places::{Found, Place, earlier};
pub use stages::{Refusal, StageError, settle};

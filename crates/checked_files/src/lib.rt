//! Checks the files of a session: whether each name that a file lists has a declaration there, and whether there is
//! something fitting behind each reference of it.
#![tactic(auto)]

mod checking;
mod fault;
mod reading;
mod roles;

pub use checking::{Verdict, check_all};
pub use fault::CheckFault;

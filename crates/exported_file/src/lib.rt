//! The file of a package, from what an environment has for the names that the package reaches.
#![tactic(auto)]

mod laws;

pub use laws::an_export_is_read_again;

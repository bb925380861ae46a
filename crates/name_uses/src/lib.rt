//! Names that mean nothing where they stand in the files of a package, or another thing than is wanted there.
#![tactic(auto)]

mod checking;
mod rule;
mod uses;

pub use checking::check_uses;
pub use uses::UseFault;

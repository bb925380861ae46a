//! Names that the files of a package declare: which are declared twice or may not be declared, and which variables have
//! no written type.
#![tactic(auto)]

mod declared;
mod duplicates;
mod imports;
mod inits;
mod var_types;

pub use duplicates::check_duplicates;
pub use var_types::check_var_types;

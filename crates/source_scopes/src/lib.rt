//! What a name means where it stands in the files of a package.
#![tactic(auto)]

mod imports;
mod laws;
mod looking;
mod objects;
mod parameters;
mod table;

pub use imports::Packages;
pub use laws::{one_meaning, worked_rows};
pub use looking::{Meaning, PackageScopes, Resolution};
pub use objects::{ObjectAt, ObjectKind};
pub use table::{Item, Table};

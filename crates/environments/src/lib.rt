//! Packages, and the environments that give the declarations behind names; which names a declaration refers to, and
//! which can be reached from names.
#![tactic(auto)]

mod declaring;
mod exported;
mod given;
mod laws;
mod mentions;
mod overlay;
mod package_list;
mod packages;
mod reference_walk;
mod roles;

pub use declaring::{Env, EnvError, NoDeps};
pub use exported::is_exported;
pub use given::Given;
pub use laws::{
    a_package_means_its_declarations, exported_names_are_tested, one_more_declaration_stands,
    reach_is_idempotent, reach_is_least, reach_is_monotone, references_follow_the_parts,
};
pub use mentions::{Reference, Role};
pub use overlay::Over;
pub use package_list::PackageList;
pub use packages::Package;
pub use reference_walk::references;
pub use roles::{meets_role, role_of};

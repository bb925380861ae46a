//! A walk over the files of a package that sees each declaration, type and expression in reading order, generic in
//! what is told of each and joined.
#![tactic(auto)]

mod files;
mod parsed;
mod rules;
mod source;
mod spots;
mod tops;
mod types;
mod visitor;

pub use files::{visit_file, visit_files};
pub use parsed::ParsedFile;
pub use rules::{Rule, first_place};
pub use source::Source;
pub use spots::{Role, Spot, Zone};
pub use tops::visit_top;
pub use types::{visit_expr, visit_sig, visit_type};
pub use visitor::{Around, Visitor};

//! The tables of codes of Go's export data, and of Go's keywords.
#![tactic(auto)]

mod code_table;
mod declarations;
mod descriptors;
mod entries;
pub mod laws;
mod ordinals;
mod predeclared;
mod words;

pub use code_table::CodeTable;
pub use declarations::{DeclTag, decl_tags};
pub use descriptors::{TypeTag, type_tags};
pub use entries::{EntryTag, entry_tags};
pub use ordinals::Coded;
pub use predeclared::{Basic, basics};
pub use words::{Keyword, keywords};

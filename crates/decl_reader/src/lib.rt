//! Reads a declaration of a full file, or names the first fault of its bytes. The bytes of a declaration, and of each
//! descriptor of a type, are read by themselves first, with types as numbers (`block_reader`). docs/FORMAT.md has the
//! rules in words, `decl_spelling` has them as definitions.
#![tactic(auto)]

mod basics;
mod declaration;
mod demands;
mod descent;
mod fault;
mod finished;
mod heads;
mod nodes;
mod open_reader;
mod places;
mod reading;
mod table;
mod type_off;

pub use basics::Basics;
pub use declaration::read_decl;
pub use fault::DeclFault;
pub use heads::{Head, one_head, read_head};
pub use open_reader::OpenReader;

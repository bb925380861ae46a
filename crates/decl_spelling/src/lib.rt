//! Which bytes of a file spell a declaration, and the first fault of those that spell none. The definitions and their
//! laws stand here, below the reader and the writer, which both cite them; docs/FORMAT.md has the rules in words.
#![tactic(auto)]

mod laws;
mod mention;

pub use laws::{
    declaration_or_fault, more_blocks, one_file_has_room, one_type, reading_decides,
    types_of_one_file,
};
pub use mention::{Demand, FIRST_DESCRIPTOR, Mention};

//! Reads the own bytes of a block of the data section: a descriptor, or a declaration up to where its types decide what
//! follows. Types that stand in it are numbers, and each is noted with what is asked of it. What is read tells what it
//! is spelled with: the offsets of its texts, and the positions that types drop. docs/FORMAT.md has the rules in words,
//! `decl_spelling` has them as definitions.
#![tactic(auto)]

mod block;
mod codes;
mod declarations;
mod descriptors;
mod lists;
mod members;
mod params;
mod spelled;
mod types;
mod values;

pub use block::Block;
pub use codes::{basic_named, basic_of, decl_tag_of, type_tag_of};
pub use declarations::{DeclHead, DeclParts, ReceiverParts, read_declaration_head, read_receivers};
pub use descriptors::{Flat, read_flat};
pub use members::{FieldParts, MethodParts, TermParts};
pub use params::{Param, Signature};
pub use spelled::{Embedded, SpelledConst, SpelledName, SpelledPath, SpelledPos, SpelledText};
pub use values::{Kind, Spelling, kind_of, read_value};

//! The values that declarations are made of: texts, qualified names, positions, constants, and source files with their
//! lines.
#![tactic(auto)]

mod byte_list;
mod constants;
mod positions;
mod qualified;
mod sequence;
mod source_files;

pub use byte_list::Bytes;
pub use constants::Const;
pub use positions::Pos;
pub use qualified::QName;
pub use sequence::Sequence;
pub use source_files::FileInfo;

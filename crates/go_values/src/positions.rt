use crate::byte_list::Bytes;

/// A place in a source file, or none. Lines and columns count from 1, columns in bytes.
#[derive(Clone, Debug, Drop, PartialEq, Eq, PartialOrd, Ord, Hash)]
pub enum Pos {
    Nowhere,
    At { file: Bytes, line: u32, column: u32 },
}

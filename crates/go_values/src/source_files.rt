use crate::byte_list::Bytes;
use crate::sequence::Sequence;

/// A source file as positions need it: its name, its size in bytes, and the places of the first bytes of its lines,
/// which count from 0.
#[derive(Clone, Debug, Drop, PartialEq, Eq, Hash)]
pub struct FileInfo {
    pub name: Bytes,
    pub size: u32,
    pub lines: Sequence<u32>,
}

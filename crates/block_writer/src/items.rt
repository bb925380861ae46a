//! What a block holds.

use go_values::Pos;
use type_terms::NodeId;

/// A part of a block. A path stands for a package, and a type is a node of an arena.
#[derive(Clone, Copy)]
pub enum Item<'a> {
    Number(u64),
    Flag(bool),
    Text(&'a [u8]),
    Path(&'a [u8]),
    Position(&'a Pos),
    NoPosition,
    Type(NodeId),
}

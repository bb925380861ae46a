use crate::lists::{Fields, Methods, Nodes, Terms};
use crate::literals::{Dir, Sig};
use crate::node_numbers::NodeId;
use code_tables::Basic;
use go_values::{Bytes, QName};
use std::mem::size_of;

// So that a node of a pointer doesn't grow with what structs and signatures hold.
const _: () = prove!(size_of::<Node>() == 96);

/// A type, whose parts are nodes of the same arena. Defined types, aliases and type parameters hold their names
/// alone. The first text of a function, a struct and an interface is the path of the package in which the literal
/// stands. A node takes 96 bytes, beside what its texts and lists hold.
#[derive(Clone, Debug, Drop, PartialEq, Eq, Hash)]
pub enum Node {
    Predeclared(Basic),
    Named(QName),
    Param(QName),
    AliasName(QName),
    Pointer(NodeId),
    Slice(NodeId),
    Array(u64, NodeId),
    Chan(Dir, NodeId),
    /// The key's type, and the element's.
    MapOf(NodeId, NodeId),
    FuncOf(Bytes, Sig),
    StructOf(Bytes, Fields),
    /// The embedded types, and the methods.
    Iface(Bytes, Nodes, Methods),
    /// The generic type, a `Named` or an `AliasName`, and at least one argument.
    Instance(NodeId, Nodes),
    Union(Terms),
}

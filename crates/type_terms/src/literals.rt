use crate::lists::Params;
use crate::node_numbers::NodeId;
use go_values::{Bytes, Pos};

/// What a channel may do: receive alone, send alone, or both.
#[derive(Clone, Copy, Debug, PartialEq, Eq, PartialOrd, Ord, Hash)]
pub enum Dir {
    Receive,
    Send,
    Both,
}

/// The parameters and results of a function or method. The type of the last parameter of a variadic one is the slice.
#[derive(Clone, Debug, Drop, PartialEq, Eq, Hash)]
pub struct Sig {
    pub params: Params,
    pub results: Params,
    pub variadic: bool,
}

/// A parameter, a result or a receiver. One with no name has the empty one.
#[derive(Clone, Debug, Drop, PartialEq, Eq, Hash)]
pub struct ParamNode {
    pub pos: Pos,
    pub name: Bytes,
    pub ty: NodeId,
}

/// Where a field or method of another package's literal stands: its object path, and the path of the package. Both are
/// empty where the literal is one's own.
#[derive(Clone, Debug, Drop, PartialEq, Eq, Hash)]
pub struct Origin {
    pub text: Bytes,
    pub path: Bytes,
}

/// A field of a struct.
#[derive(Clone, Debug, Drop, PartialEq, Eq, Hash)]
pub struct Field {
    pub origin: Origin,
    pub pos: Pos,
    pub name: Bytes,
    pub ty: NodeId,
    pub embedded: bool,
    pub tag: Bytes,
}

/// A method of an interface.
#[derive(Clone, Debug, Drop, PartialEq, Eq, Hash)]
pub struct IMethod {
    pub origin: Origin,
    pub pos: Pos,
    pub name: Bytes,
    pub sig: Sig,
}

/// A term of a union: a type, or with the tilde all types whose underlying type it is.
#[derive(Clone, Copy, Debug, PartialEq, Eq, Hash)]
pub struct Term {
    pub tilde: bool,
    pub ty: NodeId,
}

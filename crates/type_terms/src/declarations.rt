use crate::lists::{MethodList, Nodes};
use crate::literals::{ParamNode, Sig};
use crate::node_numbers::NodeId;
use go_values::{Bytes, Const, Pos};

/// A method of a defined type.
#[derive(Clone, Debug, Drop, PartialEq, Eq, Hash)]
pub struct Method {
    pub pos: Pos,
    pub name: Bytes,
    pub recv: ParamNode,
    pub sig: Sig,
}

/// A declaration, whose types are nodes of an arena. What an environment gives keeps the rules of `IsProperDecl`.
#[derive(Clone, Debug, Drop, PartialEq, Eq, Hash)]
pub enum DeclNode {
    Var {
        pos: Pos,
        ty: NodeId,
    },
    /// Each of the type parameters is a `Param`, here and below.
    Func {
        pos: Pos,
        tparams: Nodes,
        sig: Sig,
    },
    Constant {
        pos: Pos,
        ty: NodeId,
        value: Const,
    },
    /// A defined type. Its underlying type is a predeclared type or a literal; `any` and interfaces have no methods.
    Defined {
        pos: Pos,
        tparams: Nodes,
        underlying: NodeId,
        methods: MethodList,
    },
    /// The type of an alias with type parameters isn't one of them alone.
    Alias {
        pos: Pos,
        tparams: Nodes,
        ty: NodeId,
    },
    /// A type parameter. An implicit constraint was written without `interface`.
    Parameter {
        pos: Pos,
        implicit: bool,
        constraint: NodeId,
    },
}

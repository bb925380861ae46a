ghost use Rattle.std.specs.Prelude.{◌≡◌};
ghost use Rattle.go_type_syntax.specs.PlainTypes.{type_start};

use go_expr_syntax::{Expr, Ident, NameExpr};
use go_values::Bytes;
use sqlite_items::{Boxed, Items};

/// Fields of a struct that share a type, or an embedded field, which has no names. The tag is the value of its
/// literal, and empty where none is written.
#[cycle(syntax)]
#[derive(Debug, Drop)]
pub struct FieldExpr {
    pub names: Items<Ident>,
    pub ty: TypeExpr,
    pub tag: Bytes,
    pub at: u32,
}

/// Parameters that share a type, or one without a name, which has none in `names`. They begin at `at`.
#[cycle(syntax)]
#[derive(Debug, Drop)]
pub struct ParamExpr {
    pub names: Items<Ident>,
    pub variadic: bool,
    pub ty: TypeExpr,
    pub at: u32,
}

/// The parameters and results of a function. They begin at `at`.
#[cycle(syntax)]
#[derive(Debug, Drop)]
pub struct SigExpr {
    pub params: Items<ParamExpr>,
    pub results: Items<ParamExpr>,
    pub at: u32,
}

/// A term of a union, with `~` or without. It begins at `at`.
#[cycle(syntax)]
#[derive(Debug, Drop)]
pub struct TermExpr {
    pub tilde: bool,
    pub ty: TypeExpr,
    pub at: u32,
}

/// An element of an interface. It begins at `at`.
#[cycle(syntax)]
#[derive(Debug, Drop)]
pub enum ElemExpr {
    Method { name: Ident, sig: SigExpr, at: u32 },
    Embedded { ty: TypeExpr, at: u32 },
}

/// A type as it is written. It begins at `at`.
#[cycle(syntax)]
#[derive(Debug, Drop)]
pub enum TypeExpr {
    /// The name of a type, with the arguments of a generic one.
    Name {
        name: NameExpr,
        args: Items<TypeExpr>,
        at: u32,
    },
    Paren {
        ty: Boxed<TypeExpr>,
        at: u32,
    },
    Pointer {
        ty: Boxed<TypeExpr>,
        at: u32,
    },
    Slice {
        ty: Boxed<TypeExpr>,
        at: u32,
    },
    Array {
        length: Boxed<Expr>,
        ty: Boxed<TypeExpr>,
        at: u32,
    },
    MapOf {
        key: Boxed<TypeExpr>,
        ty: Boxed<TypeExpr>,
        at: u32,
    },
    /// A channel that can be received from, sent to, or both.
    Chan {
        receive: bool,
        send: bool,
        ty: Boxed<TypeExpr>,
        at: u32,
    },
    Func {
        sig: SigExpr,
        at: u32,
    },
    Struct {
        fields: Items<FieldExpr>,
        at: u32,
    },
    Interface {
        elems: Items<ElemExpr>,
        at: u32,
    },
    /// Terms with `|` between each two, or one term with `~`.
    Union {
        terms: Items<TermExpr>,
        at: u32,
    },
}

impl TypeExpr {
    /// Where the type begins: at its first token.
    pub fn at(&self) -> u32
        ensures { result ≡ type_start self.now }
    {
        match self {
            TypeExpr::Name { at, .. }
            | TypeExpr::Paren { at, .. }
            | TypeExpr::Pointer { at, .. }
            | TypeExpr::Slice { at, .. }
            | TypeExpr::Array { at, .. }
            | TypeExpr::MapOf { at, .. }
            | TypeExpr::Chan { at, .. }
            | TypeExpr::Func { at, .. }
            | TypeExpr::Struct { at, .. }
            | TypeExpr::Interface { at, .. }
            | TypeExpr::Union { at, .. } => *at,
        }
    }
}

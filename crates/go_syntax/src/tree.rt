use go_expr_syntax::{Expr, Ident};
use go_type_syntax::{SigExpr, TypeExpr};
use go_values::Bytes;
use sqlite_items::Items;

/// An import. The path is the value of its literal, which begins at `at`.
#[derive(Debug, Drop)]
pub struct Import {
    pub name: Option<Ident>,
    pub path: Bytes,
    pub at: u32,
}

/// Variables that share a type, as it is written. Their values are skipped.
#[derive(Debug, Drop)]
pub struct VarSpec {
    pub names: Items<Ident>,
    pub ty: Option<TypeExpr>,
}

/// Constants that share a type and a list of values, as they are written. With no values they have the type
/// and the values of another specification.
#[derive(Debug, Drop)]
pub struct ConstSpec {
    pub names: Items<Ident>,
    pub ty: Option<TypeExpr>,
    pub values: Items<Expr>,
    /// The number of the specification in its group, from 0.
    pub iota: usize,
    /// The number of the one whose type and values it has: its own, or that of the last before it that has
    /// values. The first of a group has its own in any case.
    pub source: usize,
}

/// Type parameters that share a constraint. They begin at `at`.
#[derive(Debug, Drop)]
pub struct TParam {
    pub names: Items<Ident>,
    pub constraint: TypeExpr,
    pub at: u32,
}

/// A declared type.
#[derive(Debug, Drop)]
pub struct TypeSpec {
    pub name: Ident,
    pub tparams: Items<TParam>,
    pub ty: TypeExpr,
}

/// The receiver of a method: its name, the base type and the names of that type's parameters. It begins at `at`, behind
/// the parenthesis: at its name, or else at the star or the base.
#[derive(Debug, Drop)]
pub struct Receiver {
    pub name: Option<Ident>,
    pub pointer: bool,
    pub base: Ident,
    pub args: Items<Ident>,
    pub at: u32,
}

/// A declared function or method, whose body is skipped.
#[derive(Debug, Drop)]
pub struct FuncDecl {
    pub receiver: Option<Receiver>,
    pub name: Ident,
    pub tparams: Items<TParam>,
    pub sig: SigExpr,
}

/// A declaration at the top of a file.
#[derive(Debug, Drop)]
pub enum Top {
    Constant(ConstSpec),
    Var(VarSpec),
    Defined(TypeSpec),
    Alias(TypeSpec),
    Func(FuncDecl),
}

/// A file's package clause, imports and declarations, in the order of the source.
#[derive(Debug, Drop)]
pub struct SourceFile {
    pub name: Ident,
    pub imports: Items<Import>,
    pub tops: Items<Top>,
}

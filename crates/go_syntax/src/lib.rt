//! The declarations of a Go file as a tree, or the first fault at its place.
#![tactic(auto)]

mod constants;
mod decls;
mod files;
mod functions;
mod generics;
mod outcomes;
mod parsing;
mod skipped;
mod tree;

pub use go_expr_syntax::{Expr, Ident, NameExpr, Operator};
pub use go_type_syntax::{ElemExpr, FieldExpr, ParamExpr, SigExpr, TermExpr, TypeExpr};
pub use outcomes::{
    depth_at_the_first_token, dots_are_wider, no_fault_of_a_file, one_place, one_tree,
};
pub use parsing::{LeftOutKind, MAX_DEPTH, SyntaxFault, parse};
pub use tree::{ConstSpec, FuncDecl, Import, Receiver, SourceFile, TParam, Top, TypeSpec, VarSpec};

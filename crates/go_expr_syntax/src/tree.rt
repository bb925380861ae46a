ghost use Rattle.std.specs.Prelude.{◌≡◌};
ghost use Rattle.go_expr_syntax.specs.PlainExprs.{expr_start};

use crate::symbols::{Ident, Operator};
use go_lexer::Token;
use sqlite_items::Boxed;

/// The name of a type, of this package or of another. It begins at `at`.
#[derive(Clone, Copy, Debug, PartialEq, Eq)]
pub struct NameExpr {
    pub package: Option<Ident>,
    pub name: Ident,
    pub at: u32,
}

/// A constant expression as it is written. It begins at `at`.
#[derive(Debug, Drop)]
pub enum Expr {
    Literal {
        token: Token,
        at: u32,
    },
    Name {
        name: NameExpr,
        at: u32,
    },
    Convert {
        to: NameExpr,
        arg: Boxed<Expr>,
        at: u32,
    },
    Paren {
        arg: Boxed<Expr>,
        at: u32,
    },
    /// The operator stands where the expression begins.
    Unary {
        op: Operator,
        arg: Boxed<Expr>,
        at: u32,
    },
    /// The operator stands at `op_at`.
    Binary {
        op: Operator,
        op_at: u32,
        left: Boxed<Expr>,
        right: Boxed<Expr>,
        at: u32,
    },
}

impl Expr {
    /// Where the expression begins: at its first token.
    pub fn at(&self) -> u32
        ensures { result ≡ expr_start self.now }
    {
        match self {
            Expr::Literal { at, .. }
            | Expr::Name { at, .. }
            | Expr::Convert { at, .. }
            | Expr::Paren { at, .. }
            | Expr::Unary { at, .. }
            | Expr::Binary { at, .. } => *at,
        }
    }
}

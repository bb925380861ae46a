//! Go's tokens as readers see them, and its constant expressions as trees.
#![tactic(auto)]

mod either;
mod expressions;
mod faults;
mod laws;
mod names;
mod reading;
mod source;
mod symbols;
mod tree;

pub use either::after_fault;
pub use expressions::{Operand, expression, outer_expression};
pub use faults::{Fault, Stop};
pub use laws::{expression_stands, expression_start, symbols_stand};
pub use names::{dotted, more_names, tag};
pub use reading::{Fit, Kind, Read, ident, onward, past, single, start, starts, told_at, too_deep};
pub use source::symbols_of;
pub use symbols::{Ident, Operator, Quoted, Symbol, Tokens};
pub use tree::{Expr, NameExpr};

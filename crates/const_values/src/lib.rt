//! Go's arithmetic on constants: truth values, whole numbers and texts, each of a basic kind (the
//! language specification's sections Constant expressions, Arithmetic operators, Comparison operators and
//! Conversions).
#![tactic(auto)]

mod arithmetic;
mod bits;
mod calls;
mod kinds;
pub mod laws;
mod operators;
mod results;
mod values;

pub use calls::{binary, convert, shift, unary};
pub use operators::{BinaryOp, ConstFault, UnaryOp};
pub use values::Value;

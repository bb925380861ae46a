//! The words for the kinds and operators of constants.

use crate::no_answer::NoAnswer;
use code_tables::{Basic, basics};
use const_values::{BinaryOp, UnaryOp};
use std::alloc::Global;

/// The operators between two operands.
pub const OPERATORS: [(&str, BinaryOp); 17] = [
    ("||", BinaryOp::Or),
    ("&&", BinaryOp::And),
    ("==", BinaryOp::Eq),
    ("!=", BinaryOp::Ne),
    ("<", BinaryOp::Lt),
    ("<=", BinaryOp::Le),
    (">", BinaryOp::Gt),
    (">=", BinaryOp::Ge),
    ("+", BinaryOp::Add),
    ("-", BinaryOp::Sub),
    ("|", BinaryOp::BitOr),
    ("^", BinaryOp::Xor),
    ("*", BinaryOp::Mul),
    ("/", BinaryOp::Div),
    ("%", BinaryOp::Rem),
    ("&", BinaryOp::BitAnd),
    ("&^", BinaryOp::AndNot),
];

/// The kind that a word names as `Basic` does.
pub fn kind_of(alloc: Global, word: &str) -> Result<Basic, NoAnswer> {
    let table = basics();
    for code in 0..32 {
        if let Some(kind) = table.of_code(code)
            && format!(in alloc; "{kind:?}")?.as_str() == word
        {
            return Ok(kind);
        }
    }
    Err(NoAnswer::NoCase)
}

/// The operator between two operands that a word is.
pub fn binary_of(word: &str) -> Result<BinaryOp, NoAnswer> {
    for (own, op) in &OPERATORS {
        if *own == word {
            return Ok(*op);
        }
    }
    Err(NoAnswer::NoCase)
}

/// The operator before an operand that a word is.
pub fn unary_of(word: &str) -> Result<UnaryOp, NoAnswer> {
    match word {
        "+" => Ok(UnaryOp::Plus),
        "-" => Ok(UnaryOp::Minus),
        "^" => Ok(UnaryOp::Flip),
        "!" => Ok(UnaryOp::Not),
        _ => Err(NoAnswer::NoCase),
    }
}

/// An operator with one operand.
#[derive(Clone, Copy, Debug, PartialEq, Eq, Hash)]
pub enum UnaryOp {
    Plus,
    Minus,
    Flip, // `^`
    Not,
}

/// An operator with two operands. The shifts have a call of their own.
#[derive(Clone, Copy, Debug, PartialEq, Eq, Hash)]
pub enum BinaryOp {
    Or,
    And,
    Eq,
    Ne,
    Lt,
    Le,
    Gt,
    Ge,
    Add,
    Sub,
    BitOr,
    Xor,
    Mul,
    Div,
    Rem,
    BitAnd,
    AndNot,
}

/// Why an operation on constants has no value.
#[derive(Clone, Copy, Debug, PartialEq, Eq, Hash)]
pub enum ConstFault {
    Mismatch, // the kinds do not go together, or have no such operator
    DivideByZero,
    Wide, // the exact result is not from -2^127 to 2^127 - 1
    Overflow, // a whole number is not in the range of its kind
    NegativeShift,
    FloatConstant, // a conversion to a floating kind, which this project leaves out
    OutOfMemory,
}

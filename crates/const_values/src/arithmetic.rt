ghost use Rattle.std.specs.Prelude.{◌≡◌, ◌≢◌, false, IfSome, IfNone, IsTrue, pos};
ghost use Rattle.std.specs.Option.{SomeIff};
ghost use Rattle.std.specs.Prelude.{FitsSigned, int_rem};
ghost use Rattle.std.specs.Int.{w128};
ghost use Rattle.code_tables.specs.declared.predeclared.Basic.TheVariants.{UntypedInt};
ghost use Rattle.const_values.specs.Exact as exact;
ghost use Rattle.const_values.specs.Answers.{is_division};
ghost use Rattle.const_values.specs.Values.{in_range};

use crate::bits;
use crate::operators::BinaryOp;
use go_values::Const;

/// The exact result of an operator on whole numbers, or `None` where it has more than 128 bits.
pub fn of_wholes(op: BinaryOp, left: i128, right: i128) -> Option<Const>
    requires has { IsTrue (exact.has_whole op) }
    requires divisor { IsTrue (is_division op) → right ≢ pos 0 }
    ensures value { IfSome result (λ value. value ≡ exact.of_wholes op left right) }
    ensures ranged { IfSome result (λ value. IsTrue (in_range UntypedInt value)) }
    ensures wide { IfNone result (in_range UntypedInt (exact.of_wholes op left right) ≡ false) }
{
    match op {
        BinaryOp::Eq => Some(Const::Bool(left == right)),
        BinaryOp::Ne => Some(Const::Bool(left != right)),
        BinaryOp::Lt => Some(Const::Bool(left < right)),
        BinaryOp::Le => Some(Const::Bool(left <= right)),
        BinaryOp::Gt => Some(Const::Bool(left > right)),
        BinaryOp::Ge => Some(Const::Bool(left >= right)),
        BinaryOp::Add => Some(Const::Int(left.checked_add(right)?)),
        BinaryOp::Sub => Some(Const::Int(left.checked_sub(right)?)),
        BinaryOp::Mul => Some(Const::Int(left.checked_mul(right)?)),
        BinaryOp::Div => Some(Const::Int(left.checked_div(right)?)),
        BinaryOp::Rem => Some(Const::Int(remainder(left, right))),
        BinaryOp::BitOr => Some(Const::Int(bits::or(left, right))),
        BinaryOp::Xor => Some(Const::Int(bits::xor(left, right))),
        BinaryOp::BitAnd => Some(Const::Int(bits::and(left, right))),
        BinaryOp::AndNot => Some(Const::Int(bits::and_not(left, right))),
        BinaryOp::Or | BinaryOp::And => unreachable!(),
    }
}

// By -1 the quotient may have more than 128 bits, and the remainder is 0.
fn remainder(left: i128, right: i128) -> i128
    requires { right ≢ pos 0 }
    ensures { result ≡ int_rem left right }
{
    if right == -1 { 0 } else { left % right }
}

/// The number shifted to the left or to the right, or `None` where that has more than 128 bits.
pub fn shifted(left: bool, number: i128, count: u128) -> Option<i128>
    ensures { SomeIff result (FitsSigned w128 (exact.shift_by left number count)) (exact.shift_by left number count) }
{
    if left {
        shift_left(number, count)
    } else {
        Some(shift_right(number, count))
    }
}

// The number times a power of two.
fn shift_left(number: i128, count: u128) -> Option<i128>
    ensures { SomeIff result (FitsSigned w128 (exact.shift_left number count)) (exact.shift_left number count) }
{
    if number == 0 {
        Some(0)
    } else if count < 127 {
        number.checked_mul(1i128 << count)
    } else if count == 127 && number == -1 {
        Some(i128::MIN)
    } else {
        None
    }
}

// The number by a power of two, rounded down.
fn shift_right(number: i128, count: u128) -> i128
    ensures { result ≡ exact.shift_right number count }
{
    if count < 127 {
        number >> count
    } else if number < 0 {
        -1
    } else {
        0
    }
}

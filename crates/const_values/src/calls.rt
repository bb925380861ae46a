ghost use Rattle.std.specs.Prelude.{◌≡◌, ◌≢◌, IfOk, IfErr, IsErrOf, IsTrue};
ghost use Rattle.const_values.specs.Answers.{unary_answer, binary_answer, shift_answer, convert_answer, within_kind};
ghost use Rattle.const_values.specs.Values.{IsValue, IsText, admits};

use crate::arithmetic::shifted;
use crate::kinds::{admits, common_kind, flip_within, in_range, is_floating};
use crate::operators::{BinaryOp, ConstFault, UnaryOp};
use crate::results::{has, is_division, is_zero, result_kind, result_of};
use crate::values::Value;
use code_tables::Basic;
use go_values::{Bytes, Const};
use std::alloc::{AllocError, Global};

/// The value of an operator with one operand: `+`, `-`, `^` or `!`. Takes no memory.
#[tactic(auto, unfolding(crate::specs::Answers::unary_answer))]
pub fn unary(op: UnaryOp, v: &Value) -> Result<Value, ConstFault>
    requires { IsValue v.now }
    ensures answer { result ≡ unary_answer op v.now }
    ensures kept { IfOk result IsValue }
{
    let value = match (op, &v.value) {
        (UnaryOp::Not, Const::Bool(truth)) => Const::Bool(!*truth),
        (UnaryOp::Plus, Const::Int(number)) => Const::Int(*number),
        (UnaryOp::Minus, Const::Int(number)) => match number.checked_neg() {
            Some(opposite) => Const::Int(opposite),
            None => return Err(ConstFault::Wide),
        },
        (UnaryOp::Flip, Const::Int(number)) => Const::Int(flip_within(v.kind, *number)),
        _ => return Err(ConstFault::Mismatch),
    };
    within_kind(v.kind, value)
}

/// The value of an operator with two operands. Only the sum of two texts takes memory, in a time linear in
/// its length.
#[tactic(auto, unfolding(crate::specs::Answers::binary_answer))]
pub fn binary(alloc: Global, op: BinaryOp, left: &Value, right: &Value) -> Result<Value, ConstFault>
    requires left_is { IsValue left.now }
    requires right_is { IsValue right.now }
    ensures value { IfOk result (λ made. binary_answer op left.now right.now ≡ Ok made) }
    ensures fault { IfErr result (λ fault. fault ≢ ConstFault.OutOfMemory
        → binary_answer op left.now right.now ≡ Err fault) }
    ensures memory { IsErrOf result ConstFault.OutOfMemory → IsText left.now.value }
    ensures kept { IfOk result IsValue }
{
    if !has(op, &left.value, &right.value) {
        return Err(ConstFault::Mismatch);
    }
    let Some(kind) = common_kind(left.kind, right.kind) else {
        return Err(ConstFault::Mismatch)
    };
    if !in_range(kind, &left.value) || !in_range(kind, &right.value) {
        return Err(ConstFault::Overflow);
    }
    if is_division(op) && is_zero(&right.value) {
        return Err(ConstFault::DivideByZero);
    }
    let value = result_of(alloc, op, &left.value, &right.value)?;
    within_kind(result_kind(op, kind), value)
}

/// The value shifted to the left or to the right by a count, which may be of any whole kind. Takes no
/// memory.
#[tactic(auto, unfolding(crate::specs::Answers::shift_answer))]
pub fn shift(left: bool, v: &Value, count: &Value) -> Result<Value, ConstFault>
    requires value_is { IsValue v.now }
    requires count_is { IsValue count.now }
    ensures answer { result ≡ shift_answer left v.now count.now }
    ensures kept { IfOk result IsValue }
{
    let (Const::Int(number), Const::Int(places)) = (&v.value, &count.value) else {
        return Err(ConstFault::Mismatch);
    };
    if *places < 0 {
        return Err(ConstFault::NegativeShift);
    }
    match shifted(left, *number, *places as u128) {
        Some(exact) => within_kind(v.kind, Const::Int(exact)),
        None => Err(ConstFault::Wide),
    }
}

/// The value as one of another kind. Only a text takes memory, in a time linear in its length.
#[tactic(auto, unfolding(crate::specs::Answers::convert_answer))]
pub fn convert(alloc: Global, to: Basic, v: &Value) -> Result<Value, ConstFault>
    requires { IsValue v.now }
    ensures value { IfOk result (λ made. convert_answer to v.now ≡ Ok made) }
    ensures fault { IfErr result (λ fault. fault ≢ ConstFault.OutOfMemory → convert_answer to v.now ≡ Err fault) }
    ensures memory { IsErrOf result ConstFault.OutOfMemory → IsText v.now.value }
    ensures kept { IfOk result IsValue }
{
    if is_floating(to) {
        return Err(ConstFault::FloatConstant);
    }
    if !admits(to, &v.value) {
        return Err(ConstFault::Mismatch);
    }
    if !in_range(to, &v.value) {
        return Err(ConstFault::Overflow);
    }
    match copy(alloc, &v.value) {
        Ok(value) => Ok(Value { kind: to, value }),
        Err(_) => Err(ConstFault::OutOfMemory),
    }
}

fn copy(alloc: Global, value: &Const) -> Result<Const, AllocError>
    ensures same { IfOk result (λ made. made ≡ value.now) }
    ensures memory { IfErr result (λ _. IsText value.now) }
{
    match value {
        Const::Bool(truth) => Ok(Const::Bool(*truth)),
        Const::Int(number) => Ok(Const::Int(*number)),
        Const::Str(text) => Ok(Const::Str(Bytes::from_slice(alloc, text.as_slice())?)),
    }
}

// A result of a kind that admits it, if it is in the kind's range.
fn within_kind(kind: Basic, value: Const) -> Result<Value, ConstFault>
    requires { IsTrue (admits kind value) }
    ensures answer { result ≡ within_kind kind value }
    ensures kept { IfOk result IsValue }
{
    if in_range(kind, &value) {
        Ok(Value { kind, value })
    } else {
        Err(ConstFault::Overflow)
    }
}

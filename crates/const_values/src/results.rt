ghost use Rattle.std.specs.Prelude.{◌≡◌, ◌≢◌, ◌++◌, false, IfOk, IfErr, IsErrOf, IsTrue, ◌⊎◌};
ghost use Rattle.code_tables.specs.declared.predeclared.Basic.TheVariants.{UntypedInt};
ghost use Rattle.const_values.specs.Answers.{is_division};
ghost use Rattle.const_values.specs.Exact as exact;
ghost use Rattle.const_values.specs.Values.{in_range, IsText};

use crate::arithmetic;
use crate::operators::{BinaryOp, ConstFault};
use code_tables::Basic;
use go_values::{Bytes, Const};
use std::alloc::{AllocError, Global};

/// Whether two values are of one class, and the class has the operator.
pub fn has(op: BinaryOp, left: &Const, right: &Const) -> bool
    ensures { result ≡ exact.has op left.now right.now }
{
    match (left, right) {
        (Const::Bool(_), Const::Bool(_)) => has_truth(op),
        (Const::Int(_), Const::Int(_)) => has_whole(op),
        (Const::Str(_), Const::Str(_)) => has_text(op),
        _ => false,
    }
}

fn has_truth(op: BinaryOp) -> bool
    ensures { result ≡ exact.has_truth op }
{
    match op {
        BinaryOp::Or | BinaryOp::And | BinaryOp::Eq | BinaryOp::Ne => true,
        _ => false,
    }
}

fn has_whole(op: BinaryOp) -> bool
    ensures { result ≡ exact.has_whole op }
{
    match op {
        BinaryOp::Or | BinaryOp::And => false,
        _ => true,
    }
}

fn has_text(op: BinaryOp) -> bool
    ensures { result ≡ exact.has_text op }
{
    match op {
        BinaryOp::Add => true,
        _ => is_comparison(op),
    }
}

// Whether the operator is `==`, `!=`, `<`, `<=`, `>` or `>=`.
fn is_comparison(op: BinaryOp) -> bool
    ensures { result ≡ exact.is_comparison op }
{
    match op {
        BinaryOp::Eq | BinaryOp::Ne | BinaryOp::Lt | BinaryOp::Le | BinaryOp::Gt | BinaryOp::Ge =>
            true,
        _ => false,
    }
}

/// The kind of the result on operands of a kind: a comparison gives an untyped bool.
pub fn result_kind(op: BinaryOp, kind: Basic) -> Basic
    ensures { result ≡ exact.result_kind op kind }
{
    if is_comparison(op) {
        Basic::UntypedBool
    } else {
        kind
    }
}

/// Whether the operator is `/` or `%`.
pub fn is_division(op: BinaryOp) -> bool
    ensures { result ≡ is_division op }
{
    match op {
        BinaryOp::Div | BinaryOp::Rem => true,
        _ => false,
    }
}

/// Whether the value is the whole number 0.
pub fn is_zero(value: &Const) -> bool
    ensures { result ≡ exact.is_zero value.now }
{
    match value {
        Const::Int(number) => *number == 0,
        _ => false,
    }
}

/// The exact result of an operator on two values of a class that has it. Only a text takes memory, in a
/// time linear in its length.
pub fn result_of(
    alloc: Global,
    op: BinaryOp,
    left: &Const,
    right: &Const,
) -> Result<Const, ConstFault>
    requires has { IsTrue (exact.has op left.now right.now) }
    requires divisor { IsTrue (is_division op) → exact.is_zero right.now ≡ false }
    ensures value { IfOk result (λ value. value ≡ exact.result_of op left.now right.now) }
    ensures wide { IsErrOf result ConstFault.Wide
        → in_range UntypedInt (exact.result_of op left.now right.now) ≡ false }
    ensures memory { IsErrOf result ConstFault.OutOfMemory → IsText left.now }
    ensures faults { IfErr result (λ fault. (fault ≡ ConstFault.Wide) ⊎ (fault ≡ ConstFault.OutOfMemory)) }
{
    match (left, right) {
        (Const::Bool(x), Const::Bool(y)) => Ok(Const::Bool(of_truths(op, *x, *y))),
        (Const::Int(x), Const::Int(y)) => match arithmetic::of_wholes(op, *x, *y) {
            Some(value) => Ok(value),
            None => Err(ConstFault::Wide),
        },
        (Const::Str(x), Const::Str(y)) => match of_texts(alloc, op, x, y) {
            Ok(value) => Ok(value),
            Err(_) => Err(ConstFault::OutOfMemory),
        },
        _ => unreachable!(),
    }
}

fn of_truths(op: BinaryOp, left: bool, right: bool) -> bool
    ensures { result ≡ exact.of_truths op left right }
{
    match op {
        BinaryOp::Or => left || right,
        BinaryOp::And => left && right,
        BinaryOp::Eq => left == right,
        BinaryOp::Ne => left != right,
        _ => false,
    }
}

fn of_texts(alloc: Global, op: BinaryOp, left: &Bytes, right: &Bytes) -> Result<Const, AllocError>
    requires { IsTrue (exact.has_text op) }
    ensures { IfOk result (λ value. value ≡ exact.of_texts op left.now right.now) }
{
    match op {
        BinaryOp::Add => Ok(Const::Str(joined(alloc, left, right)?)),
        BinaryOp::Eq => Ok(Const::Bool(left == right)),
        BinaryOp::Ne => Ok(Const::Bool(left != right)),
        BinaryOp::Lt => Ok(Const::Bool(left < right)),
        BinaryOp::Le => Ok(Const::Bool(left <= right)),
        BinaryOp::Gt => Ok(Const::Bool(left > right)),
        BinaryOp::Ge => Ok(Const::Bool(left >= right)),
        _ => unreachable!(),
    }
}

fn joined(alloc: Global, left: &Bytes, right: &Bytes) -> Result<Bytes, AllocError>
    ensures { IfOk result (λ text. text ≡ left.now ++ right.now) }
{
    let mut text = Vec::with_capacity(alloc, left.as_slice().len() + right.as_slice().len())?;
    text.extend_from_slice(left.as_slice())?;
    text.extend_from_slice(right.as_slice())?;
    Ok(Bytes::from_vec(text))
}

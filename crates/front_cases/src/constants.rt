//! Cases of constants. An operand and a value are a kind, and behind it in parentheses a truth value, a number or a
//! text: `Int8(-128)`.

ghost use Rattle.std.specs.Prelude.{IfOk};
ghost use Rattle.const_values.specs.Values.{IsValue};

use crate::escapes::escaped;
use crate::no_answer::NoAnswer;
use crate::operators::{OPERATORS, binary_of, kind_of, unary_of};
use code_tables::Basic;
use const_values::{ConstFault, Value, binary, convert, shift, unary};
use go_values::{Bytes, Const};
use std::alloc::{AllocError, Global};

/// The constant of a kind that a text spells.
fn const_of(alloc: Global, kind: Basic, text: &str) -> Result<Const, NoAnswer> {
    match kind {
        Basic::Bool | Basic::UntypedBool => match text {
            "true" => Ok(Const::Bool(true)),
            "false" => Ok(Const::Bool(false)),
            _ => Err(NoAnswer::NoCase),
        },
        Basic::String | Basic::UntypedString => {
            Ok(Const::Str(Bytes::from_slice(alloc, text.as_bytes())?))
        }
        _ => match text.parse::<i128>() {
            Ok(number) => Ok(Const::Int(number)),
            Err(_) => Err(NoAnswer::NoCase),
        },
    }
}

/// The operand that a word spells.
fn operand(alloc: Global, word: &str) -> Result<Value, NoAnswer>
    ensures { IfOk result IsValue }
{
    let (name, behind) = word.split_once('(').ok_or(NoAnswer::NoCase)?;
    let text = behind.strip_suffix(")").ok_or(NoAnswer::NoCase)?;
    let kind = kind_of(alloc, name)?;
    let value = const_of(alloc, kind, text)?;
    let value = Value { kind, value };
    if value.is_valid() {
        Ok(value)
    } else {
        Err(NoAnswer::NoCase)
    }
}

/// What is printed of a value or a fault.
fn shown(alloc: Global, found: &Result<Value, ConstFault>) -> Result<String, AllocError> {
    let value = match found {
        Ok(value) => value,
        Err(fault) => return format!(in alloc; "{fault:?}"),
    };
    let kind = value.kind;
    match &value.value {
        Const::Bool(truth) => format!(in alloc; "{kind:?}({truth})"),
        Const::Int(number) => format!(in alloc; "{kind:?}({number})"),
        Const::Str(text) => {
            let text = escaped(alloc, text.as_slice())?;
            format!(in alloc; "{kind:?}({text})")
        }
    }
}

/// The value of an operator: `OPERATOR OPERAND` or `OPERAND OPERATOR OPERAND`.
pub fn value(alloc: Global, words: &[&str]) -> Result<String, NoAnswer> {
    let found = match words {
        [op, arg] => unary(unary_of(op)?, &operand(alloc, arg)?),
        [left, op, right] => {
            between(alloc, op, &operand(alloc, left)?, &operand(alloc, right)?)?
        }
        _ => return Err(NoAnswer::NoCase),
    };
    Ok(shown(alloc, &found)?)
}

/// The value of an operator between two operands, a shift among them.
fn between(
    alloc: Global,
    op: &str,
    left: &Value,
    right: &Value,
) -> Result<Result<Value, ConstFault>, NoAnswer>
    requires left_is { IsValue left.now }
    requires right_is { IsValue right.now }
{
    match op {
        "<<" => Ok(shift(true, left, right)),
        ">>" => Ok(shift(false, left, right)),
        _ => Ok(binary(alloc, binary_of(op)?, left, right)),
    }
}

/// The value of a conversion: `KIND OPERAND`.
pub fn converted(alloc: Global, words: &[&str]) -> Result<String, NoAnswer> {
    let [kind, arg] = words else {
        return Err(NoAnswer::NoCase);
    };
    let found = convert(alloc, kind_of(alloc, kind)?, &operand(alloc, arg)?);
    Ok(shown(alloc, &found)?)
}

/// The operators that the kind of an operand has: those that don't answer that there is none when both operands are it.
pub fn operators_of(alloc: Global, words: &[&str]) -> Result<String, NoAnswer> {
    let [arg] = words else {
        return Err(NoAnswer::NoCase);
    };
    let value = operand(alloc, arg)?;
    let mut text = String::new(alloc);
    for (word, op) in &OPERATORS {
        if binary(alloc, *op, &value, &value).is_ok() {
            let space = if text.is_empty() { "" } else { " " };
            text.push_str(space)?;
            text.push_str(word)?;
        }
    }
    Ok(text)
}

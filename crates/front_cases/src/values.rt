//! Cases of the values that declarations are made of.

use crate::no_answer::NoAnswer;
use go_values::{Bytes, Const, FileInfo, Pos, QName, Sequence};
use std::alloc::{AllocError, Global};

/// Copies of values that are made of a text: a name, a position, a constant and a file.
pub fn copied(alloc: Global, text: &[u8]) -> Result<String, NoAnswer> {
    let name = copied_name(alloc, text)?;
    let position = copied_position(alloc, text)?;
    let constant = copied_constant(alloc, text)?;
    let file = copied_file(alloc, text)?;
    Ok(format!(in alloc; "{name} {position} {constant} {file}")?)
}

fn copied_name(alloc: Global, text: &[u8]) -> Result<String, AllocError> {
    let path = Bytes::from_slice(alloc, text)?;
    let name = Bytes::new(alloc);
    let copy = QName { path, name }.clone()?;
    format!(in alloc; "{copy:?}")
}

fn copied_position(alloc: Global, text: &[u8]) -> Result<String, AllocError> {
    let file = Bytes::from_slice(alloc, text)?;
    let position = Pos::At {
        file,
        line: 3,
        column: 7,
    };
    let copy = position.clone()?;
    format!(in alloc; "{copy:?}")
}

fn copied_constant(alloc: Global, text: &[u8]) -> Result<String, AllocError> {
    let copy = Const::Str(Bytes::from_slice(alloc, text)?).clone()?;
    format!(in alloc; "{copy:?}")
}

fn copied_file(alloc: Global, text: &[u8]) -> Result<String, AllocError> {
    let name = Bytes::from_slice(alloc, text)?;
    let lines = Sequence::from_items(Vec::from_slice(alloc, &[0, 10, 11])?);
    let file = FileInfo {
        name,
        size: 12,
        lines,
    };
    let copy = file.clone()?;
    format!(in alloc; "{copy:?}")
}

/// How two values compare: numbers, names with a dot behind their path, or texts.
pub fn compared(alloc: Global, words: &[&str]) -> Result<String, NoAnswer> {
    let [left, right] = words else {
        return Err(NoAnswer::NoCase);
    };
    let order = match (left.parse::<i128>(), right.parse::<i128>()) {
        (Ok(left), Ok(right)) => Const::Int(left).cmp(&Const::Int(right)),
        _ => match (left.split_once('.'), right.split_once('.')) {
            (Some(left), Some(right)) => name_of(alloc, left)?.cmp(&name_of(alloc, right)?),
            _ => text_of(alloc, left)?.cmp(&text_of(alloc, right)?),
        },
    };
    Ok(format!(in alloc; "{order:?}")?)
}

fn text_of(alloc: Global, word: &str) -> Result<Bytes, AllocError> {
    Bytes::from_slice(alloc, word.as_bytes())
}

fn name_of(alloc: Global, parts: (&str, &str)) -> Result<QName, AllocError> {
    Ok(QName {
        path: text_of(alloc, parts.0)?,
        name: text_of(alloc, parts.1)?,
    })
}

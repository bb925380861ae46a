//! The text of a case: each character stands for itself, but a dollar sign, which no token of Go has, begins an escape:
//! `$n`, `$r` and `$t`, `$d` for itself, `$xHH` for a byte, and `${TIMES*TEXT}` for a text so many times.

use crate::no_answer::NoAnswer;
use std::alloc::{AllocError, Global};

/// The most bytes of a text: 4 MiB, as the readers of sources have it.
pub const LONGEST: usize = 4194304;

/// The bytes that the text of a case stands for.
pub fn expanded(alloc: Global, text: &str) -> Result<Vec<u8>, NoAnswer> {
    let mut bytes = Vec::with_capacity(alloc, text.len())?;
    let mut pieces = text.split('$');
    if let Some(first) = pieces.next() {
        bytes.extend_from_slice(first.as_bytes())?;
    }
    for piece in pieces {
        match piece.strip_prefix("{") {
            Some(repetition) => add_repeated(&mut bytes, repetition)?,
            None => add_escaped(&mut bytes, piece.as_bytes())?,
        }
    }
    Ok(bytes)
}

/// Adds what stands behind a dollar sign: the byte that is meant, and what follows.
fn add_escaped(bytes: &mut Vec<u8>, piece: &[u8]) -> Result<(), NoAnswer> {
    let (byte, behind) = match piece {
        [b'x', high, low, behind @ ..] => ((digit(*high)? << 4) | digit(*low)?, behind),
        [b'n', behind @ ..] => (b'\n', behind),
        [b'r', behind @ ..] => (b'\r', behind),
        [b't', behind @ ..] => (b'\t', behind),
        [b'd', behind @ ..] => (b'$', behind),
        _ => return Err(NoAnswer::NoCase),
    };
    bytes.push(byte)?;
    Ok(bytes.extend_from_slice(behind)?)
}

/// The value of a hexadecimal digit.
fn digit(byte: u8) -> Result<u8, NoAnswer> {
    match (byte as char).to_digit(16) {
        Some(value) => Ok((value & 0xf) as u8),
        None => Err(NoAnswer::NoCase),
    }
}

/// Adds what stands behind a dollar sign and a brace: a text so many times, and what follows.
fn add_repeated(bytes: &mut Vec<u8>, repetition: &str) -> Result<(), NoAnswer> {
    let (repeated, behind) = repetition.split_once('}').ok_or(NoAnswer::NoCase)?;
    let (times, text) = repeated.split_once('*').ok_or(NoAnswer::NoCase)?;
    let times = times.parse::<u32>().or(Err(NoAnswer::NoCase))?;
    for _ in 0..times {
        if bytes.len() > LONGEST {
            return Err(NoAnswer::NoCase);
        }
        bytes.extend_from_slice(text.as_bytes())?;
    }
    Ok(bytes.extend_from_slice(behind.as_bytes())?)
}

/// The text of a case that stands for these bytes.
pub fn escaped(alloc: Global, bytes: &[u8]) -> Result<String, AllocError> {
    let mut text = String::with_capacity(alloc, bytes.len())?;
    for byte in bytes {
        match *byte {
            b'\n' => text.push_str("$n")?,
            b'$' => text.push_str("$d")?,
            b' '..=b'~' => text.push(*byte as char)?,
            other => text.push_str(format!(in alloc; "$x{other:02x}")?.as_str())?,
        }
    }
    Ok(text)
}

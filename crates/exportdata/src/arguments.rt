use std::alloc::{AllocError, Global};
use std::env::FillError;
use std::rt::Env;

/// Why there are no words.
#[derive(Drop)]
pub enum NoWords {
    /// The argument after these words is no UTF-8.
    After(Vec<String>),
    OutOfMemory,
}

// An argument, or why there is none.
#[derive(Drop)]
enum Argument {
    Word(String),
    NotText,
    NotPresent,
}

/// The arguments of the program, without its name.
pub fn read_words<R: Env>(rt: &R, alloc: Global) -> Result<Vec<String>, NoWords> {
    let mut words = Vec::new(alloc);
    let mut room = Vec::new(alloc);
    for number in 1..usize::MAX {
        match read_argument(rt, alloc, number, &mut room) {
            Ok(Argument::Word(word)) => {
                if words.push(word).is_err() {
                    return Err(NoWords::OutOfMemory);
                }
            }
            Ok(Argument::NotText) => return Err(NoWords::After(words)),
            Ok(Argument::NotPresent) => break,
            Err(_) => return Err(NoWords::OutOfMemory),
        }
    }
    Ok(words)
}

// Reads the argument of this number. The room serves for all arguments, and grows until it is large enough.
fn read_argument<R: Env>(
    rt: &R,
    alloc: Global,
    number: usize,
    room: &mut Vec<u8>,
) -> Result<Argument, AllocError> {
    for _ in 0..u64::MAX {
        match rt.arg(number, room.as_mut_slice()) {
            Ok(len) => return Ok(word_of(Vec::from_slice(alloc, &room[..len])?)),
            Err(FillError::NotPresent) => return Ok(Argument::NotPresent),
            Err(FillError::TooLong) => {
                let wanted = room.len().saturating_mul(2).max(256);
                room.resize(wanted, 0u8)?;
            }
        }
    }
    Err(AllocError)
}

// An argument of these bytes.
fn word_of(bytes: Vec<u8>) -> Argument {
    match String::from_utf8(bytes) {
        Ok(word) => Argument::Word(word),
        Err(_) => Argument::NotText,
    }
}

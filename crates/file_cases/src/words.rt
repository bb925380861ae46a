use crate::faults::CaseFault;
use crate::items::byte_of;
use std::alloc::Global;

/// The words of a line. In a word `\x` and two digits stand for a byte, as in what is printed. A word that stands there
/// 256 times ends in `*256`.
pub fn words_of(alloc: Global, line: &str) -> Result<Vec<String>, CaseFault> {
    let mut words = Vec::new(alloc);
    for item in line.split_whitespace() {
        let (word, count) = repeated(item)?;
        for _ in 0..count {
            words.push(word_of(alloc, word)?)?;
        }
    }
    Ok(words)
}

/// A word, and how often it stands there.
fn repeated(item: &str) -> Result<(&str, u64), CaseFault> {
    match item.split_once('*') {
        Some((word, count)) => Ok((word, count.parse().map_err(|_| CaseFault::Unclear)?)),
        None => Ok((item, 1)),
    }
}

fn word_of(alloc: Global, word: &str) -> Result<String, CaseFault> {
    let mut pieces = word.split('\\');
    let mut bytes = Vec::new(alloc);
    if let Some(first) = pieces.next() {
        bytes.extend_from_slice(first.as_bytes())?;
    }
    for piece in pieces {
        let Some((byte, text)) = escaped(piece) else {
            return Err(CaseFault::Unclear);
        };
        bytes.push(byte)?;
        bytes.extend_from_slice(text.as_bytes())?;
    }
    match String::from_utf8(bytes) {
        Ok(word) => Ok(word),
        Err(_) => Err(CaseFault::Unclear),
    }
}

/// What stands behind a `\`: a byte and the text after it.
fn escaped(piece: &str) -> Option<(u8, &str)> {
    let digits = piece.strip_prefix("x")?;
    let (digits, text) = digits.split_at_checked(2)?;
    Some((byte_of(digits)?, text))
}

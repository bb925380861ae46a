use crate::faults::CaseFault;
use crate::shelf::Shelf;
use std::alloc::Global;

/// The bytes that items spell, one after another: a byte as `0a`, one that is repeated as `00*20`, all bytes of a
/// file as `p.x`, or those from the fourth to the eleventh as `p.x[3..11]`, where either number may be missing.
pub fn bytes_of(alloc: Global, items: &str, files: &Shelf) -> Result<Vec<u8>, CaseFault> {
    let mut bytes = Vec::new(alloc);
    for item in items.split_whitespace() {
        add_item(&mut bytes, item, files)?;
    }
    Ok(bytes)
}

fn add_item(bytes: &mut Vec<u8>, item: &str, files: &Shelf) -> Result<(), CaseFault> {
    if let Some((byte, count)) = repeated(item) {
        let len = bytes.len().saturating_add(count);
        bytes.resize(len, byte)?;
        return Ok(());
    }
    match part_of(files, item) {
        Some(part) => Ok(bytes.extend_from_slice(part)?),
        None => Err(CaseFault::Unclear),
    }
}

/// A byte and how often it stands there.
fn repeated(item: &str) -> Option<(u8, usize)> {
    match item.split_once('*') {
        Some((byte, count)) => Some((byte_of(byte)?, count.parse().ok()?)),
        None => Some((byte_of(item)?, 1)),
    }
}

/// The byte of two hexadecimal digits.
pub fn byte_of(digits: &str) -> Option<u8> {
    match digits.as_bytes() {
        [high, low] => Some(digit(*high)? << 4 | digit(*low)?),
        _ => None,
    }
}

fn digit(letter: u8) -> Option<u8> {
    match letter {
        b'0'..=b'9' => Some(letter - b'0'),
        b'a'..=b'f' => Some(letter - b'a' + 10),
        _ => None,
    }
}

fn part_of<'a>(files: &'a Shelf, item: &str) -> Option<&'a [u8]> {
    let Some((name, range)) = item.split_once('[') else {
        return files.get(item);
    };
    let bytes = files.get(name)?;
    let (from, to) = range.strip_suffix("]")?.split_once("..")?;
    let from = place_or(from, 0)?;
    let to = place_or(to, bytes.len())?;
    if from <= to && to <= bytes.len() {
        return Some(&bytes[from..to]);
    }
    None
}

fn place_or(digits: &str, missing: usize) -> Option<usize> {
    if digits.is_empty() {
        return Some(missing);
    }
    digits.parse().ok()
}

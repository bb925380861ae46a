use crate::reports::Report;
use std::alloc::{AllocError, Global};
use wire_bytes::{ByteFault, Cursor, text_at};

/// What begins the bytes that are read.
#[derive(Clone, Copy)]
pub enum Spelled<'a> {
    Number,
    Signed,
    Flag,
    /// A whole constant of this type.
    Whole(&'a str),
}

/// Adds what is spelled, and where it ends, or the fault. There is no answer for a type that isn't known.
pub fn report_spelled(
    alloc: Global,
    spelled: Spelled<'_>,
    bytes: &[u8],
    report: &mut Report,
) -> Result<Option<()>, AllocError> {
    let mut cursor = Cursor::new(bytes, 0, bytes.len());
    let text = match read(alloc, &mut cursor, spelled)? {
        Some(Ok(value)) => {
            let end = cursor.place();
            format!(in alloc; "{value}, as far as {end}")?
        }
        Some(Err(fault)) => format!(in alloc; "{fault:?}")?,
        None => return Ok(None),
    };
    report.line("= ", text.as_bytes())?;
    Ok(Some(()))
}

/// The value as it is printed.
fn read(
    alloc: Global,
    cursor: &mut Cursor<'_>,
    spelled: Spelled<'_>,
) -> Result<Option<Result<String, ByteFault>>, AllocError> {
    let value = match spelled {
        Spelled::Number => cursor.uvarint().map(i128::from),
        Spelled::Signed => cursor.varint().map(i128::from),
        Spelled::Flag => cursor.flag().map(i128::from),
        Spelled::Whole(ty) => match whole(cursor, ty) {
            Some(value) => value,
            None => return Ok(None),
        },
    };
    Ok(Some(match value {
        Ok(value) => Ok(value.to_string(alloc)?),
        Err(fault) => Err(fault),
    }))
}

fn whole(cursor: &mut Cursor<'_>, ty: &str) -> Option<Result<i128, ByteFault>> {
    Some(match ty {
        "int8" => cursor.whole(true, 1),
        "int16" => cursor.whole(true, 2),
        "int32" => cursor.whole(true, 4),
        "int64" => cursor.whole(true, 8),
        "uint8" => cursor.whole(false, 1),
        "uint16" => cursor.whole(false, 2),
        "uint32" => cursor.whole(false, 4),
        "uint64" => cursor.whole(false, 8),
        "untyped" => cursor.whole(true, 64),
        _ => return None,
    })
}

/// Adds the text at an offset of a string section.
pub fn report_text(strings: &[u8], offset: u64, report: &mut Report) -> Result<(), AllocError> {
    match text_at(strings, offset) {
        Some(text) => report.line("| ", text),
        None => report.line("= ", b"no text"),
    }
}

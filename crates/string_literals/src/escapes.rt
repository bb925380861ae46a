ghost use Rattle.std.specs.Prelude.{◌≡◌, ◌≤◌, ◌++◌, length, IfSome, OnOk};
ghost use Rattle.string_literals.specs.Escapes.{simple, digits, byte_escape, code_point_escape, escape, bytes_of};

use std::alloc::AllocError;

/// What a piece of a literal stands for.
#[derive(Clone, Copy, Debug, PartialEq, Eq)]
pub(crate) enum Meaning {
    Byte(u8),
    /// The bytes of a code point in UTF-8.
    CodePoint(char),
}

/// What a byte of a literal, with the bytes that belong to it, stands for.
#[derive(Clone, Copy, Debug, PartialEq, Eq)]
pub(crate) struct Piece {
    pub(crate) meaning: Meaning,
    /// How many more bytes belong to it.
    pub(crate) more: usize,
}

/// What a backslash and one byte stand for.
fn simple(byte: u8) -> Option<u8>
    ensures { result ≡ simple byte }
{
    match byte {
        b'a' => Some(0x07),
        b'b' => Some(0x08),
        b'f' => Some(0x0c),
        b'n' => Some(b'\n'),
        b'r' => Some(b'\r'),
        b't' => Some(b'\t'),
        b'v' => Some(0x0b),
        b'\\' | b'"' | b'\'' => Some(byte),
        _ => None,
    }
}

/// The value of so many digits of a base.
fn digits(base: u32, count: usize, text: &[u8]) -> Option<u32>
    requires low { 2 ≤ base }
    requires high { base ≤ 16 }
    requires count { count ≤ 8 }
    ensures exact { result ≡ digits base count 0 text.now }
    ensures inside { IfSome result (λ _. count ≤ length text.now) }
{
    let mut value = 0;
    let mut rest = text;
    for _ in 0..count {
        let [first, after @ ..] = rest else {
            return None;
        };
        let digit = char::from(*first).to_digit(base)?;
        value = value * base + digit;
        rest = after;
    }
    Some(value)
}

/// An escape of so many bytes that stands for the byte of this value.
fn byte_escape(more: usize, value: Option<u32>) -> Option<Piece>
    ensures { result ≡ byte_escape more value }
{
    let byte = u8::try_from(value?).ok()?;
    Some(Piece {
        meaning: Meaning::Byte(byte),
        more,
    })
}

/// An escape of so many bytes that stands for the code point of this value.
fn code_point_escape(more: usize, value: Option<u32>) -> Option<Piece>
    ensures { result ≡ code_point_escape more value }
{
    let character = char::from_u32(value?)?;
    Some(Piece {
        meaning: Meaning::CodePoint(character),
        more,
    })
}

/// What the bytes behind a backslash stand for with it, if they begin with an escape.
pub(crate) fn escape(text: &[u8]) -> Option<Piece>
    ensures exact { result ≡ escape text.now }
    ensures inside { IfSome result (λ piece. piece.more ≤ length text.now) }
{
    let [first, rest @ ..] = text else {
        return None;
    };
    if let Some(byte) = simple(*first) {
        return Some(Piece {
            meaning: Meaning::Byte(byte),
            more: 1,
        });
    }
    match *first {
        b'x' => byte_escape(3, digits(16, 2, rest)),
        b'u' => code_point_escape(5, digits(16, 4, rest)),
        b'U' => code_point_escape(9, digits(16, 8, rest)),
        _ => byte_escape(3, digits(8, 3, text)),
    }
}

/// Appends what a piece stands for.
pub(crate) fn append(value: &mut Vec<u8>, meaning: Meaning) -> Result<(), AllocError>
    ensures { OnOk result (value.new.items ≡ value.old.items ++ bytes_of meaning) }
{
    match meaning {
        Meaning::Byte(byte) => value.push(byte)?,
        Meaning::CodePoint(character) => {
            value.extend_from_slice(character.encode_utf8(&mut [0; 4]).as_bytes())?
        }
    }
    Ok(())
}

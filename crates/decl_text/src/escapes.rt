ghost use Rattle.std.specs.Prelude.{◌≡◌, ◌++◌, ◌∷◌, [], ◌<◌, if◌then◌else◌, OnOk, codes};
ghost use Rattle.std.specs.List.{list_any};
ghost use Rattle.decl_text.specs.Printed.{hex_digit, escape, is_escaped, is_escaped_in_quotes, printed, quoted};

use std::alloc::AllocError;

/// Whether a byte isn't printed as it is.
fn is_escaped(byte: u8) -> bool
    ensures { result ≡ is_escaped byte }
{
    byte < 0x21 || byte == 0x7f || byte == b'"' || byte == b'\\'
}

/// Whether a byte isn't printed as it is between quotes.
fn is_escaped_in_quotes(byte: u8) -> bool
    ensures { result ≡ is_escaped_in_quotes byte }
{
    byte < 0x20 || byte > 0x7e || byte == b'"' || byte == b'\\'
}

/// A digit of base 16, in lower case.
fn hex_digit(digit: u8) -> u8
    requires { digit < 16 }
    ensures { result ≡ hex_digit digit }
{
    if digit < 10 {
        b'0' + digit
    } else {
        b'a' - 10 + digit
    }
}

/// Adds a byte, as it is or as `\x` and two digits.
fn put_byte(line: &mut Vec<u8>, byte: u8, escaped: bool) -> Result<(), AllocError>
    ensures { OnOk result (line.new.items ≡ line.old.items ++ (if escaped then escape byte else byte ∷ [])) }
{
    if escaped {
        line.extend_from_slice(&[b'\\', b'x', hex_digit(byte / 16), hex_digit(byte % 16)])
    } else {
        line.push(byte)?;
        Ok(())
    }
}

/// Whether some byte of a text isn't printed as it is.
fn has_escapes(text: &[u8]) -> bool
    ensures { result ≡ list_any is_escaped text.now }
{
    text.iter().any(|byte| is_escaped(*byte))
}

/// Adds a path, a name, a label or a file as it is printed: each byte below 21 in base 16, 7f, the quote and the
/// backslash as `\x` and two digits.
#[tactic(auto, using(crate::proofs::PrintedLemmas::printed_plain))]
pub fn put_printed(line: &mut Vec<u8>, text: &[u8]) -> Result<(), AllocError>
    ensures { OnOk result (line.new.items ≡ line.old.items ++ printed text.now) }
{
    if !has_escapes(text) {
        return line.extend_from_slice(text);
    }
    for byte in text {
        put_byte(line, *byte, is_escaped(*byte))?;
    }
    Ok(())
}

/// Adds a text between quotes.
pub fn put_quoted(line: &mut Vec<u8>, text: &[u8]) -> Result<(), AllocError>
    ensures { OnOk result (line.new.items ≡ line.old.items ++ quoted text.now) }
{
    line.push(b'"')?;
    for byte in text {
        put_byte(line, *byte, is_escaped_in_quotes(*byte))?;
    }
    line.push(b'"')?;
    Ok(())
}

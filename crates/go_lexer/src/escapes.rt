ghost use Rattle.std.specs.Prelude.{◌≡◌, ◌≤◌, ◌<◌, ◌^◌, ℕ};
ghost use Rattle.std.specs.Str.{chars};
ghost use Rattle.go_lexer.specs.Escapes.{digits, digits_of, is_code_point, is_simple, byte_escape, code_point_escape};
ghost use Rattle.go_lexer.specs.Escapes.{escape, escape_of};

use crate::characters::split_char;

/// The digits of an escape.
#[derive(Clone, Copy)]
pub(crate) enum Digits<'a> {
    /// Their value, and the text after them.
    Number(u32, &'a str),
    /// A character in their place is no digit.
    Broken,
    /// The text ends before the last one.
    Short,
}

/// What stands after a backslash.
#[derive(Clone, Copy)]
pub(crate) enum Escape<'a> {
    /// An escape, and the text after it.
    Whole(&'a str),
    /// No escape.
    Wrong,
    /// An escape inside which the text ends.
    Cut,
}

/// Reads so many digits of a base.
fn read_digits(base: u32, count: u32, text: &str) -> Digits<'_>
    requires low { 2 ≤ base }
    requires high { base ≤ 16 }
    requires count { count ≤ 8 }
    ensures { digits_of result ≡ digits base count 0 (chars text.now) }
{
    let mut value = 0;
    let mut rest = text;
    for _ in 0..count {
        let Some((first, after)) = split_char(rest) else {
            return Digits::Short;
        };
        let Some(digit) = first.to_digit(base) else {
            return Digits::Broken;
        };
        value = value * base + digit;
        rest = after;
    }
    Digits::Number(value, rest)
}

fn is_code_point(value: u32) -> bool
    ensures { result ≡ is_code_point value }
{
    value < 0xd800 || 0xe000 <= value && value < 0x11_0000
}

fn byte_escape(digits: Digits<'_>) -> Escape<'_>
    ensures { escape_of result ≡ byte_escape (digits_of digits.entry) }
{
    match digits {
        Digits::Number(value, rest) => {
            if value < 256 {
                Escape::Whole(rest)
            } else {
                Escape::Wrong
            }
        }
        Digits::Broken => Escape::Wrong,
        Digits::Short => Escape::Cut,
    }
}

fn code_point_escape(digits: Digits<'_>) -> Escape<'_>
    ensures { escape_of result ≡ code_point_escape (digits_of digits.entry) }
{
    match digits {
        Digits::Number(value, rest) => {
            if is_code_point(value) {
                Escape::Whole(rest)
            } else {
                Escape::Wrong
            }
        }
        Digits::Broken => Escape::Wrong,
        Digits::Short => Escape::Cut,
    }
}

fn is_simple(quote: char, c: char) -> bool
    ensures { result ≡ is_simple quote c }
{
    matches!(c, 'a' | 'b' | 'f' | 'n' | 'r' | 't' | 'v' | '\\') || c == quote
}

/// Reads what stands after a backslash, in a literal with this quote.
pub(crate) fn read_escape(quote: char, text: &str) -> Escape<'_>
    ensures { escape_of result ≡ escape quote (chars text.now) }
{
    let Some((first, rest)) = split_char(text) else {
        return Escape::Cut;
    };
    if is_simple(quote, first) {
        return Escape::Whole(rest);
    }
    match first {
        'x' => byte_escape(read_digits(16, 2, rest)),
        'u' => code_point_escape(read_digits(16, 4, rest)),
        'U' => code_point_escape(read_digits(16, 8, rest)),
        _ => byte_escape(read_digits(8, 3, text)),
    }
}

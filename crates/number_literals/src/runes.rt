ghost use Rattle.std.specs.Prelude.{◌≡◌, ◌≤◌, ◌∷◌, ℕ, List, option_map, IfSome, IfNone};
ghost use Rattle.std.specs.Str.{chars};
ghost use Rattle.go_lexer.specs.Escapes.{is_code_point};
ghost use Rattle.go_lexer.specs.TokenTexts.{IsTokenOf, bytes_at};
ghost use Rattle.go_lexer.specs.declared.token_kinds.Token.{Token};
ghost use Rattle.go_lexer.specs.declared.token_kinds.TokenKind.TheVariants.{Rune};
ghost use Rattle.number_literals.specs.RuneReading.{fixed_of, byte_of, code_point_of, simple_of, numbered_of};
ghost use Rattle.number_literals.specs.RuneReading.{escape_of, one_of, plain_of_one, character_of, inside_of};
ghost use Rattle.number_literals.specs.RuneReading.{before_quote, rune_of};
ghost use Rattle.number_literals.specs.Runes.{HasRune};

/// The value of so many digits of a base.
fn fixed(base: u32, count: usize, digits: &[u8]) -> Option<u32>
    requires low { 2 ≤ base }
    requires high { base ≤ 16 }
    requires few { count ≤ 8 }
    ensures { result ≡ fixed_of base count digits.now }
{
    if digits.len() != count {
        return None;
    }
    let mut value = 0;
    for &byte in digits {
        let digit = char::from(byte).to_digit(base)?;
        value = value * base + digit;
    }
    Some(value)
}

/// A value that fits a byte.
fn byte_of(value: Option<u32>) -> Option<u32>
    ensures { result ≡ byte_of value }
{
    let value = value?;
    if value < 256 { Some(value) } else { None }
}

fn is_code_point(value: u32) -> bool
    ensures { result ≡ is_code_point value }
{
    value < 0xd800 || 0xe000 <= value && value < 0x11_0000
}

/// A value that is a code point and no surrogate half.
fn code_point_of(value: Option<u32>) -> Option<u32>
    ensures { result ≡ code_point_of value }
{
    let value = value?;
    if is_code_point(value) {
        Some(value)
    } else {
        None
    }
}

/// What a backslash and one byte stand for.
fn simple(byte: u8) -> Option<u32>
    ensures { result ≡ simple_of byte }
{
    match byte {
        b'a' => Some(0x07),
        b'b' => Some(0x08),
        b'f' => Some(0x0c),
        b'n' => Some(0x0a),
        b'r' => Some(0x0d),
        b't' => Some(0x09),
        b'v' => Some(0x0b),
        b'\\' | b'\'' => Some(u32::from(byte)),
        _ => None,
    }
}

/// The value of an escape that has digits: its first byte, the bytes behind it, and both.
fn numbered(first: u8, rest: &[u8], escape: &[u8]) -> Option<u32>
    requires { escape.now ≡ first ∷ rest.now }
    ensures { result ≡ numbered_of first rest.now }
{
    match first {
        b'x' => byte_of(fixed(16, 2, rest)),
        b'u' => code_point_of(fixed(16, 4, rest)),
        b'U' => code_point_of(fixed(16, 8, rest)),
        _ => byte_of(fixed(8, 3, escape)),
    }
}

/// The value of an escape, of what stands behind its backslash.
fn escape(text: &[u8]) -> Option<u32>
    ensures { result ≡ escape_of text.now }
{
    match text {
        [] => None,
        [byte] => simple(*byte),
        [first, rest @ ..] => numbered(*first, rest, text),
    }
}

/// The only character of a text.
fn one_character(text: &str) -> Option<char>
    ensures { result ≡ one_of (chars text.now) }
{
    let mut rest = text.chars();
    let first = rest.next()?;
    if rest.as_str().is_empty() {
        Some(first)
    } else {
        None
    }
}

fn plain_of_one(character: Option<char>) -> Option<u32>
    ensures { result ≡ plain_of_one character }
{
    match character? {
        '\'' | '\n' | '\\' => None,
        other => Some(u32::from(other)),
    }
}

/// The value of a character that stands for itself, of its bytes.
fn character(inside: &[u8]) -> Option<u32>
    ensures { result ≡ character_of inside.now }
{
    match str::from_utf8(inside) {
        Ok(text) => plain_of_one(one_character(text)),
        Err(_) => None,
    }
}

/// The value of what stands between the quotes.
fn between(inside: &[u8]) -> Option<u32>
    ensures { result ≡ inside_of inside.now }
{
    match inside {
        [b'\\', text @ ..] => escape(text),
        _ => character(inside),
    }
}

/// What stands before the quote at the end.
fn before_quote(text: &[u8]) -> Option<&[u8]>
    ensures { option_map (λ front. front.now) result ≡ before_quote text.now }
{
    let (last, front) = text.split_last()?;
    if *last == b'\'' { Some(front) } else { None }
}

#[tactic(auto, unfolding(crate::specs::RuneReading::rune_of))]
fn read_rune(literal: &[u8]) -> Option<u32>
    ensures { result ≡ rune_of literal.now }
{
    match literal {
        [b'\'', rest @ ..] => between(before_quote(rest)?),
        _ => None,
    }
}

/// The value of a rune literal, given with its quotes.
pub fn rune(literal: &[u8]) -> Option<u32>
    ensures found { IfSome result (λ v. HasRune literal.now v) }
    ensures none { IfNone result ((v : ℕ) → HasRune literal.now v → ⊥) }
{
    read_rune(literal)
}

/// A rune literal has one value.
pub fn one_rune()
    ensures { (literal : List ℕ) (v w : ℕ) → HasRune literal v → HasRune literal w → v ≡ w }
{}

/// Each token of a source that is a rune literal has a value.
pub fn each_rune()
    ensures { (source : List ℕ) (t : Token) → IsTokenOf source t → t.kind ≡ Rune
        → (v : ℕ) × HasRune (bytes_at source t) v }
{}

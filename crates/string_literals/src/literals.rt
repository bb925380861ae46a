ghost use Rattle.std.specs.Prelude.{◌≡◌, ◌≤◌, ◌==◌, not, ℕ, List, length, IfOk};
ghost use Rattle.string_literals.specs.Values.{piece, text_after, raw_text, value_of};
ghost use Rattle.string_literals.specs.Grammar.{HasValue, IsValued, literal_of};
ghost use Rattle.go_lexer.specs.Grammar.{IsStringText, Each};
ghost use Rattle.go_lexer.specs.TokenTexts.{IsTokenOf, bytes_at};
ghost use Rattle.go_lexer.specs.declared.token_kinds.Token.{Token};
ghost use Rattle.go_lexer.specs.declared.token_kinds.TokenKind.TheVariants.{Text};
ghost use Rattle.go_lexer.specs.Characters.{double_quote, back_quote};

use crate::escapes::{Meaning, Piece, append, escape};
use go_values::Bytes;
use std::alloc::{AllocError, Global};

/// What a byte between double quotes stands for, with the bytes behind it that belong to it.
fn piece(first: u8, after: &[u8]) -> Piece
    ensures exact { result ≡ piece first after.now }
    ensures inside { result.more ≤ length after.now }
{
    if first == b'\\'
        && let Some(piece) = escape(after)
    {
        return piece;
    }
    Piece {
        meaning: Meaning::Byte(first),
        more: 0,
    }
}

/// The value of an interpreted literal, of what stands behind its first quote.
fn interpreted(alloc: Global, inside: &[u8]) -> Result<Vec<u8>, AllocError>
    ensures { IfOk result (λ value. value.items ≡ text_after 0 inside.now) }
{
    let mut value = Vec::with_capacity(alloc, inside.len())?;
    let mut rest = inside;
    while let [first, after @ ..] = rest {
        if *first == b'"' {
            return Ok(value);
        }
        let piece = piece(*first, after);
        append(&mut value, piece.meaning)?;
        rest = &after[piece.more..];
    }
    Ok(value)
}

/// The value of a raw literal, of what stands behind its first quote.
fn raw(alloc: Global, inside: &[u8]) -> Result<Vec<u8>, AllocError>
    ensures { IfOk result (λ value. value.items ≡ raw_text inside.now) }
{
    let mut value = Vec::with_capacity(alloc, inside.len())?;
    for byte in inside {
        match *byte {
            b'`' => return Ok(value),
            b'\r' => {}
            other => value.push(other)?,
        }
    }
    Ok(value)
}

/// The value of a literal, by its first quote.
fn read_literal(alloc: Global, literal: &[u8]) -> Result<Bytes, AllocError>
    ensures { IfOk result (λ value. value ≡ value_of literal.now) }
{
    match literal {
        [b'`', inside @ ..] => Ok(Bytes::from_vec(raw(alloc, inside)?)),
        [b'"', inside @ ..] => Ok(Bytes::from_vec(interpreted(alloc, inside)?)),
        _ => Ok(Bytes::new(alloc)),
    }
}

/// The bytes that a string literal stands for, given with its quotes. For what is no literal: a backslash that begins
/// no escape stands for itself, `\'` for the single quote; a text that isn't closed ends where its bytes do; and what
/// begins with no quote has the empty value.
pub fn unquoted(alloc: Global, literal: &[u8]) -> Result<Bytes, AllocError>
    ensures found { IfOk result (λ value. (bytes : List ℕ) → HasValue literal.now bytes → value ≡ bytes) }
    ensures exact { IfOk result (λ value. value ≡ value_of literal.now) }
{
    read_literal(alloc, literal)
}

/// A literal has at most one value.
pub fn one_value()
    ensures { (literal value other : List ℕ) → HasValue literal value → HasValue literal other → value ≡ other }
{}

/// Each string of the lexical grammar has a value, and so has the text of each token of a source that is a string
/// literal.
pub fn each_has_value()
    ensures token { (source : List ℕ) (t : Token) → IsTokenOf source t → t.kind ≡ Text → IsValued (bytes_at source t) }
    ensures interpreted { (inside : List ℕ) → IsStringText inside → IsValued (literal_of double_quote inside) }
    ensures raw { (inside : List ℕ) → Each (λ c. not (c == back_quote)) inside
        → IsValued (literal_of back_quote inside) }
{}

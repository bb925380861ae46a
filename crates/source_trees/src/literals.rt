ghost use Rattle.std.specs.Prelude.{◌≡◌, IfOk};
ghost use Rattle.number_literals.specs.Reading.{answer, whole_of};
ghost use Rattle.number_literals.specs.RuneReading.{rune_of};
ghost use Rattle.source_trees.specs.Words.{span};
ghost use Rattle.source_trees.specs.Literals.{whole_literal, rune_literal, literal_by, literal_of};

use go_lexer::{Token, TokenKind};
use go_values::Bytes;
use number_literals::{ValueFault, rune, whole};
use std::alloc::{AllocError, Global};
use string_literals::unquoted;

/// What a literal stands for.
#[derive(Debug, Drop)]
pub enum Literal {
    /// An integer, of at most 2^127 - 1.
    Whole(i128),
    /// An integer that is greater.
    TooWide,
    /// A code point.
    Rune(u32),
    /// The bytes of a string.
    Text(Bytes),
    Floating,
    Imaginary,
    /// No literal. No token of a source whose kind is a literal's has this.
    NoLiteral,
}

/// The bytes of a span, as far as it lies in the source.
pub fn text(source: &[u8], start: u32, end: u32) -> &[u8]
    ensures { result.now ≡ span source.now start end }
{
    let end = source.len().min(end as usize);
    let start = end.min(start as usize);
    &source[start..end]
}

fn whole_literal(bytes: &[u8]) -> Literal
    ensures { result ≡ whole_literal (answer (whole_of bytes.now)) }
{
    match whole(bytes) {
        Ok(value) => Literal::Whole(value),
        Err(ValueFault::Wide) => Literal::TooWide,
        Err(ValueFault::NotALiteral) => Literal::NoLiteral,
    }
}

fn rune_literal(bytes: &[u8]) -> Literal
    ensures { result ≡ rune_literal (rune_of bytes.now) }
{
    match rune(bytes) {
        Some(value) => Literal::Rune(value),
        None => Literal::NoLiteral,
    }
}

/// What the bytes of a token of this kind stand for.
fn literal_by(alloc: Global, kind: TokenKind, bytes: &[u8]) -> Result<Literal, AllocError>
    ensures { IfOk result (λ x. x ≡ literal_by kind bytes.now) }
{
    match kind {
        TokenKind::Whole => Ok(whole_literal(bytes)),
        TokenKind::Rune => Ok(rune_literal(bytes)),
        TokenKind::Text => Ok(Literal::Text(unquoted(alloc, bytes)?)),
        TokenKind::Floating => Ok(Literal::Floating),
        TokenKind::Imaginary => Ok(Literal::Imaginary),
        _ => Ok(Literal::NoLiteral),
    }
}

/// What the literal stands for that a token of the source is. It takes memory for a string alone.
#[tactic(auto, unfolding(crate::specs::Literals::literal_of))]
pub fn literal_value(alloc: Global, source: &[u8], token: Token) -> Result<Literal, AllocError>
    ensures { IfOk result (λ x. x ≡ literal_of source.now token) }
{
    literal_by(alloc, token.kind, text(source, token.start, token.end))
}

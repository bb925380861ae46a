ghost use Rattle.std.specs.Prelude.{◌≡◌, ◌+◌, ◌-◌, IfOk, slice_get};
ghost use Rattle.go_expr_syntax.specs.TokenView.{text_of, keyword_symbol, single_operator, pair_operator};
ghost use Rattle.go_expr_syntax.specs.TokenView.{operator_symbol};
ghost use Rattle.go_expr_syntax.specs.TokenView.{single_symbol, pair_symbol, triple_symbol, mark_symbol, symbol_of};
ghost use Rattle.go_expr_syntax.specs.TokenView.{symbols_of};

use crate::symbols::{Ident, Operator, Quoted, Symbol};
use code_tables::Keyword;
use go_lexer::{Token, TokenKind};
use std::alloc::{AllocError, Global};

/// What the grammar sees of a keyword.
fn keyword_symbol(keyword: Keyword, at: u32) -> Symbol<'static>
    ensures { result ≡ keyword_symbol keyword at }
{
    match keyword {
        Keyword::Package => Symbol::Package(at),
        Keyword::Import => Symbol::Import(at),
        Keyword::Type => Symbol::Type(at),
        Keyword::Var => Symbol::Var(at),
        Keyword::Const => Symbol::Const(at),
        Keyword::Chan => Symbol::Chan(at),
        Keyword::Map => Symbol::Map(at),
        Keyword::Struct => Symbol::Struct(at),
        Keyword::Func => Symbol::Func(at),
        Keyword::Interface => Symbol::Interface(at),
        _ => Symbol::Other(at),
    }
}

/// The operator of one byte, other than the star and the bar.
fn single_operator(byte: u8) -> Option<Operator>
    ensures { result ≡ single_operator byte }
{
    if byte == b'+' {
        Some(Operator::Plus)
    } else if byte == b'-' {
        Some(Operator::Minus)
    } else if byte == b'^' {
        Some(Operator::Caret)
    } else if byte == b'/' {
        Some(Operator::Divide)
    } else if byte == b'%' {
        Some(Operator::Remainder)
    } else if byte == b'&' {
        Some(Operator::Ampersand)
    } else if byte == b'<' {
        Some(Operator::Less)
    } else if byte == b'>' {
        Some(Operator::Greater)
    } else if byte == b'!' {
        Some(Operator::Not)
    } else {
        None
    }
}

/// The operator of two bytes.
fn pair_operator(first: u8, second: u8) -> Option<Operator>
    ensures { result ≡ pair_operator first second }
{
    if first == b'|' && second == b'|' {
        Some(Operator::Or)
    } else if first == b'&' && second == b'&' {
        Some(Operator::And)
    } else if first == b'=' && second == b'=' {
        Some(Operator::Equal)
    } else if first == b'!' && second == b'=' {
        Some(Operator::NotEqual)
    } else if first == b'<' && second == b'=' {
        Some(Operator::LessEqual)
    } else if first == b'>' && second == b'=' {
        Some(Operator::GreaterEqual)
    } else if first == b'<' && second == b'<' {
        Some(Operator::ShiftLeft)
    } else if first == b'>' && second == b'>' {
        Some(Operator::ShiftRight)
    } else if first == b'&' && second == b'^' {
        Some(Operator::Clear)
    } else {
        None
    }
}

/// What the grammar sees of an operator, or of a token that is none.
fn operator_symbol(operator: Option<Operator>, at: u32) -> Symbol<'static>
    ensures { result ≡ operator_symbol operator at }
{
    match operator {
        Some(operator) => Symbol::Operator(operator, at),
        None => Symbol::Other(at),
    }
}

/// What the grammar sees of an operator or punctuation of one byte.
fn single_symbol(byte: u8, at: u32) -> Symbol<'static>
    ensures { result ≡ single_symbol byte at }
{
    if byte == b';' {
        Symbol::Semicolon(at)
    } else if byte == b',' {
        Symbol::Comma(at)
    } else if byte == b'.' {
        Symbol::Dot(at)
    } else if byte == b'=' {
        Symbol::Assign(at)
    } else if byte == b'(' {
        Symbol::OpenParen(at)
    } else if byte == b')' {
        Symbol::CloseParen(at)
    } else if byte == b'[' {
        Symbol::OpenBracket(at)
    } else if byte == b']' {
        Symbol::CloseBracket(at)
    } else if byte == b'{' {
        Symbol::OpenBrace(at)
    } else if byte == b'}' {
        Symbol::CloseBrace(at)
    } else if byte == b'*' {
        Symbol::Star(at)
    } else if byte == b'|' {
        Symbol::Bar(at)
    } else if byte == b'~' {
        Symbol::Tilde(at)
    } else {
        operator_symbol(single_operator(byte), at)
    }
}

/// What the grammar sees of an operator of two bytes.
fn pair_symbol(first: u8, second: Option<u8>, at: u32) -> Symbol<'static>
    ensures { result ≡ pair_symbol first second at }
{
    match second {
        Some(second) => {
            if first == b'<' && second == b'-' {
                Symbol::Arrow(at)
            } else {
                operator_symbol(pair_operator(first, second), at)
            }
        }
        None => Symbol::Other(at),
    }
}

/// What the grammar sees of an operator of three bytes: only the dots are one that begins with a dot.
fn triple_symbol(first: u8, at: u32) -> Symbol<'static>
    ensures { result ≡ triple_symbol first at }
{
    if first == b'.' {
        Symbol::Ellipsis(at)
    } else {
        Symbol::Other(at)
    }
}

/// What the grammar sees of an operator or punctuation of this length.
fn mark_symbol(len: u32, first: Option<u8>, second: Option<u8>, at: u32) -> Symbol<'static>
    ensures { result ≡ mark_symbol len first second at }
{
    match first {
        Some(first) => {
            if len == 1 {
                single_symbol(first, at)
            } else if len == 2 {
                pair_symbol(first, second, at)
            } else {
                triple_symbol(first, at)
            }
        }
        None => Symbol::Other(at),
    }
}

/// The byte at a place, if one stands there.
fn byte_at(src: &[u8], at: usize) -> Option<u8>
    ensures { result ≡ slice_get src.now at }
{
    src.get(at).copied()
}

/// What the grammar sees of the operator or punctuation at a span.
fn mark_at(src: &[u8], start: u32, end: u32) -> Symbol<'static>
    ensures { result ≡ mark_symbol (end - start) (slice_get src.now start) (slice_get src.now (start + 1)) start }
{
    let len = end.saturating_sub(start);
    let first = byte_at(src, start as usize);
    let second = byte_at(src, start as usize + 1);
    mark_symbol(len, first, second, start)
}

/// The bytes between two places, or none where these are no places.
fn text_of(src: &[u8], start: u32, end: u32) -> &[u8]
    ensures { result.now ≡ text_of src.now start end }
{
    match src.get(start as usize..end as usize) {
        Some(text) => text,
        None => &[],
    }
}

impl Ident {
    /// The text of an identifier of this source: the bytes of its span, or none where that is none of the source.
    pub fn text(self, src: &[u8]) -> &[u8]
        ensures { result.now ≡ text_of src.now self.start self.end }
    {
        text_of(src, self.start, self.end)
    }
}

/// What the grammar sees of a token.
fn symbol_of(src: &[u8], token: Token) -> Symbol<'_>
    ensures { result ≡ symbol_of src.now token }
{
    let Token { kind, start, end } = token;
    match kind {
        TokenKind::Ident => Symbol::Ident(Ident { start, end }),
        TokenKind::Word(keyword) => keyword_symbol(keyword, start),
        TokenKind::Text => Symbol::Text(Quoted::new(token, text_of(src, start, end))),
        TokenKind::Inserted => Symbol::Semicolon(start),
        TokenKind::Mark => mark_at(src, start, end),
        TokenKind::Whole | TokenKind::Floating | TokenKind::Imaginary | TokenKind::Rune => {
            Symbol::Literal(token)
        }
    }
}

/// What the grammar sees of the tokens.
pub fn symbols_of<'s>(
    alloc: Global,
    src: &'s [u8],
    tokens: &[Token],
) -> Result<Vec<Symbol<'s>>, AllocError>
    ensures { IfOk result (λ v. v.items ≡ symbols_of src.now tokens.now) }
{
    let mut symbols = Vec::with_capacity(alloc, tokens.len())?;
    for token in tokens {
        symbols.push(symbol_of(src, *token))?;
    }
    Ok(symbols)
}

ghost use Rattle.std.specs.Prelude.{◌≡◌};

use go_lexer::Token;
use std::marker::Model;

/// An identifier: the span of its text in the source.
#[derive(Clone, Copy, Debug, PartialEq, Eq)]
pub struct Ident {
    pub start: u32,
    pub end: u32,
}

/// A string literal: its token, and its text in the source with the quotes. Its value is the two.
#[derive(Drop)]
pub struct Quoted<'s> {
    token: Token,
    text: &'s [u8],
}

impl<'s> Model for Quoted<'s> {
    ghost use Rattle.std.specs.Prelude.{List, ℕ};
    ghost use Rattle.go_lexer.specs.declared.token_kinds.Token.{Token};

    ghost Value = { Token × List ℕ };

    ghost view = { λ q. (q.token, q.text.now) };
}

impl<'s> Quoted<'s> {
    /// A token with its text.
    pub fn new(token: Token, text: &'s [u8]) -> Quoted<'s>
        ensures { result ≡ (token, text.now) }
    {
        Quoted { token, text }
    }

    /// The token.
    pub fn token(&self) -> Token
        ensures { result ≡ self.now.0 }
    {
        self.token
    }

    /// The text, with its quotes.
    pub fn text(&self) -> &'s [u8]
        ensures { result.now ≡ self.now.1 }
    {
        self.text
    }
}

/// An operator of an expression. Some of them stand before one operand and between two.
#[derive(Clone, Copy, Debug, PartialEq, Eq)]
pub enum Operator {
    Or,
    And,
    Equal,
    NotEqual,
    Less,
    LessEqual,
    Greater,
    GreaterEqual,
    Plus,
    Minus,
    Bar,
    Caret,
    Times,
    Divide,
    Remainder,
    ShiftLeft,
    ShiftRight,
    Ampersand,
    /// `&^`
    Clear,
    Not,
}

/// What the grammar sees of a token, with the place of its first byte.
#[derive(Drop)]
pub enum Symbol<'s> {
    Ident(Ident),
    Text(Quoted<'s>),
    /// A literal that is no string.
    Literal(Token),
    /// A semicolon, written or inserted.
    Semicolon(u32),
    Comma(u32),
    Dot(u32),
    Assign(u32),
    OpenParen(u32),
    CloseParen(u32),
    OpenBracket(u32),
    CloseBracket(u32),
    OpenBrace(u32),
    CloseBrace(u32),
    Star(u32),
    Bar(u32),
    /// Three dots.
    Ellipsis(u32),
    /// An operator of expressions other than the star and the bar.
    Operator(Operator, u32),
    Arrow(u32),
    Package(u32),
    Import(u32),
    Type(u32),
    Var(u32),
    Const(u32),
    Chan(u32),
    Map(u32),
    Struct(u32),
    Func(u32),
    Interface(u32),
    Tilde(u32),
    /// A token that stands in no declaration of this grammar.
    Other(u32),
}

/// Tokens that are left.
pub type Tokens<'s> = &'s [Symbol<'s>];

use code_tables::Keyword;

/// What a token is. Its text is the slice of its span.
#[derive(Clone, Copy, Debug, PartialEq, Eq)]
pub enum TokenKind {
    /// An identifier.
    Ident,
    /// A keyword.
    Word(Keyword),
    /// An integer literal.
    Whole,
    /// A floating-point literal.
    Floating,
    /// An imaginary literal.
    Imaginary,
    /// A rune literal.
    Rune,
    /// A string literal, interpreted or raw.
    Text,
    /// An operator or a punctuation, which the token's text tells.
    Mark,
    /// A semicolon that stands in no text: an empty span at the end of the token before.
    Inserted,
}

/// A token and its span, in bytes from the start of the source.
#[derive(Clone, Copy, Debug, PartialEq, Eq)]
pub struct Token {
    pub kind: TokenKind,
    pub start: u32,
    pub end: u32,
}

/// The first fault that a reader of a source meets, and the byte at which it stands.
#[derive(Clone, Copy, Debug, PartialEq, Eq)]
pub enum LexFault {
    /// The first byte of a sequence that is no UTF-8.
    BadUtf8 { at: u32 },
    /// A byte that is zero.
    Nul { at: u32 },
    /// A character that begins no token, or the first quote of a rune literal that has no character, or a
    /// second one.
    BadChar { at: u32 },
    /// The first byte of a rune or string literal that isn't closed.
    OpenString { at: u32 },
    /// The first byte of a comment that isn't closed.
    OpenComment { at: u32 },
    /// The backslash of an escape that isn't allowed.
    BadEscape { at: u32 },
    /// The first byte of what looks like a number and is none.
    BadNumber { at: u32 },
    /// There is not enough memory for the tokens.
    OutOfMemory,
}

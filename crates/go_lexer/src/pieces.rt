use crate::token_kinds::TokenKind;

/// A fault inside the text of a source, which stands where its rest begins.
#[derive(Clone, Copy)]
pub(crate) enum Breach {
    BadChar,
    OpenString,
    BadEscape,
    BadNumber,
    /// The text ends inside a literal, which begins here.
    CutString,
    /// The text ends inside a comment, which begins here.
    CutComment,
}

/// What stands at the front of a text, and the text after it.
#[derive(Clone, Copy)]
pub(crate) enum Piece<'a> {
    /// White space or a comment, and whether it ends a line.
    Blank(bool, &'a str),
    /// A token, and whether a line that ends after it ends with a semicolon.
    Token(TokenKind, bool, &'a str),
    /// A fault, and the text from its place on.
    Stop(Breach, &'a str),
}

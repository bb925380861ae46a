ghost use Rattle.std.specs.Prelude.{◌≡◌, length};
ghost use Rattle.std.specs.Str.{chars};
ghost use Rattle.go_lexer.specs.Escapes.{escape_of};
ghost use Rattle.go_lexer.specs.Literals.{closing, closing_of, element, element_of, escaped, string_literal};
ghost use Rattle.go_lexer.specs.Literals.{raw_literal, rune_end, rune_escape, rune_literal};
ghost use Rattle.go_lexer.specs.Pieces.{piece_of};

use crate::characters::split_char;
use crate::classes::{Class, after_run};
use crate::escapes::{Escape, read_escape};
use crate::pieces::{Breach, Piece};
use crate::token_kinds::TokenKind;

/// How a string literal goes on after its opening quote.
#[derive(Clone, Copy)]
enum Closing<'a> {
    /// It is closed, and this text follows.
    Closed(&'a str),
    /// Its line ends first.
    LineEnds,
    /// The text ends first.
    TextEnds,
    /// An escape isn't allowed, and this text begins with its backslash.
    BadEscape(&'a str),
}

/// What the front of a string literal's text is.
#[derive(Clone, Copy)]
enum Element<'a> {
    /// A character or an escape, and the text after it.
    Goes(&'a str),
    /// The end of the literal, or a fault.
    Ends(Closing<'a>),
}

fn escaped<'a>(at: &'a str, escape: Escape<'a>) -> Element<'a>
    ensures { element_of result ≡ escaped (chars at.now) (escape_of escape.entry) }
{
    match escape {
        Escape::Whole(rest) => Element::Goes(rest),
        Escape::Wrong => Element::Ends(Closing::BadEscape(at)),
        Escape::Cut => Element::Ends(Closing::TextEnds),
    }
}

fn read_element(text: &str) -> Element<'_>
    ensures { element_of result ≡ element (chars text.now) }
{
    let Some((first, rest)) = split_char(text) else {
        return Element::Ends(Closing::TextEnds);
    };
    match first {
        '"' => Element::Ends(Closing::Closed(rest)),
        '\n' => Element::Ends(Closing::LineEnds),
        '\\' => escaped(text, read_escape('"', rest)),
        _ => Element::Goes(rest),
    }
}

fn read_closing(inside: &str) -> Closing<'_>
    ensures { closing_of result ≡ closing (length (chars inside.now)) (chars inside.now) }
{
    let mut rest = inside;
    loop {
        match read_element(rest) {
            Element::Goes(after) => rest = after,
            Element::Ends(closing) => return closing,
        }
    }
}

/// An interpreted string literal, whose quote was taken.
pub(crate) fn string_literal<'a>(start: &'a str, inside: &'a str) -> Piece<'a>
    ensures { piece_of result ≡ string_literal (chars start.now) (chars inside.now) }
{
    match read_closing(inside) {
        Closing::Closed(rest) => Piece::Token(TokenKind::Text, true, rest),
        Closing::LineEnds => Piece::Stop(Breach::OpenString, start),
        Closing::TextEnds => Piece::Stop(Breach::CutString, start),
        Closing::BadEscape(at) => Piece::Stop(Breach::BadEscape, at),
    }
}

/// A raw string literal, whose quote was taken.
pub(crate) fn raw_literal<'a>(start: &'a str, inside: &'a str) -> Piece<'a>
    ensures { piece_of result ≡ raw_literal (chars start.now) (chars inside.now) }
{
    match split_char(after_run(Class::Raw, inside)) {
        Some((_, rest)) => Piece::Token(TokenKind::Text, true, rest),
        None => Piece::Stop(Breach::CutString, start),
    }
}

/// A rune literal after its character.
fn rune_end<'a>(start: &'a str, rest: &'a str) -> Piece<'a>
    ensures { piece_of result ≡ rune_end (chars start.now) (chars rest.now) }
{
    match split_char(rest) {
        Some(('\'', end)) => Piece::Token(TokenKind::Rune, true, end),
        Some(('\n', _)) => Piece::Stop(Breach::OpenString, start),
        Some(_) => Piece::Stop(Breach::BadChar, start),
        None => Piece::Stop(Breach::CutString, start),
    }
}

/// A rune literal that has this escape.
fn rune_escape<'a>(start: &'a str, at: &'a str, escape: Escape<'a>) -> Piece<'a>
    ensures { piece_of result ≡ rune_escape (chars start.now) (chars at.now) (escape_of escape.entry) }
{
    match escape {
        Escape::Whole(rest) => rune_end(start, rest),
        Escape::Wrong => Piece::Stop(Breach::BadEscape, at),
        Escape::Cut => Piece::Stop(Breach::CutString, start),
    }
}

/// A rune literal, whose quote was taken.
pub(crate) fn rune_literal<'a>(start: &'a str, inside: &'a str) -> Piece<'a>
    ensures { piece_of result ≡ rune_literal (chars start.now) (chars inside.now) }
{
    let Some((first, rest)) = split_char(inside) else {
        return Piece::Stop(Breach::CutString, start);
    };
    match first {
        '\'' => Piece::Stop(Breach::BadChar, start),
        '\n' => Piece::Stop(Breach::OpenString, start),
        '\\' => rune_escape(start, inside, read_escape('\'', rest)),
        _ => rune_end(start, rest),
    }
}

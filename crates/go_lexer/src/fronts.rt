ghost use Rattle.std.specs.Prelude.{◌≡◌};
ghost use Rattle.std.specs.Str.{chars};
ghost use Rattle.go_lexer.specs.Front.{single_owes, pair_owes, mark_one, mark_two, mark, after_point, after_slash};
ghost use Rattle.go_lexer.specs.Front.{piece_by, piece};
ghost use Rattle.go_lexer.specs.Characters.{split};
ghost use Rattle.go_lexer.specs.Pieces.{piece_of};

use crate::characters::split_char;
use crate::classes::{is_decimal, is_letter, is_space};
use crate::comments::{general_comment, line_comment};
use crate::literals::{raw_literal, rune_literal, string_literal};
use crate::marks::{is_pair, is_single, is_triple};
use crate::numbers::read_number;
use crate::pieces::{Breach, Piece};
use crate::token_kinds::TokenKind;
use crate::words::read_word;

/// Whether a line that ends after this mark ends with a semicolon.
fn single_owes(c: char) -> bool
    ensures { result ≡ single_owes c }
{
    c == ')' || c == ']' || c == '}'
}

/// Whether a mark of this character twice is `++` or `--`.
fn pair_owes(c: char) -> bool
    ensures { result ≡ pair_owes c }
{
    c == '+' || c == '-'
}

fn mark_one<'a>(start: &'a str, first: char, rest: &'a str) -> Piece<'a>
    ensures { piece_of result ≡ mark_one (chars start.now) first (chars rest.now) }
{
    if is_single(first) {
        Piece::Token(TokenKind::Mark, single_owes(first), rest)
    } else {
        Piece::Stop(Breach::BadChar, start)
    }
}

fn mark_two<'a>(start: &'a str, first: char, after: &'a str) -> Piece<'a>
    ensures { piece_of result ≡ mark_two (chars start.now) first (chars after.now) (split (chars after.now)) }
{
    let Some((second, rest)) = split_char(after) else {
        return mark_one(start, first, after);
    };
    if is_pair(first, second) {
        Piece::Token(TokenKind::Mark, first == second && pair_owes(second), rest)
    } else {
        mark_one(start, first, after)
    }
}

/// The longest operator or punctuation at the front of a text that begins with this character.
fn mark<'a>(start: &'a str, first: char, after: &'a str) -> Piece<'a>
    ensures { piece_of result ≡ mark (chars start.now) first (chars after.now) }
{
    let Some((second, behind)) = split_char(after) else {
        return mark_two(start, first, after);
    };
    let Some((third, rest)) = split_char(behind) else {
        return mark_two(start, first, after);
    };
    if is_triple(first, second, third) {
        Piece::Token(TokenKind::Mark, false, rest)
    } else {
        mark_two(start, first, after)
    }
}

fn after_point<'a>(start: &'a str, after: &'a str) -> Piece<'a>
    ensures { piece_of result ≡ after_point (chars start.now) 46 (chars after.now) (split (chars after.now)) }
{
    match split_char(after) {
        Some((second, _)) if is_decimal(second) => read_number(start),
        _ => mark(start, '.', after),
    }
}

fn after_slash<'a>(start: &'a str, after: &'a str) -> Piece<'a>
    ensures { piece_of result ≡ after_slash (chars start.now) 47 (chars after.now) (split (chars after.now)) }
{
    match split_char(after) {
        Some(('/', inside)) => line_comment(inside),
        Some(('*', inside)) => general_comment(start, inside),
        _ => mark(start, '/', after),
    }
}

fn read_after<'a>(start: &'a str, first: char, after: &'a str) -> Piece<'a>
    ensures { piece_of result ≡ piece_by (chars start.now) first (chars after.now) }
{
    if is_space(first) {
        return Piece::Blank(first == '\n', after);
    }
    if is_decimal(first) {
        return read_number(start);
    }
    match first {
        '.' => after_point(start, after),
        '/' => after_slash(start, after),
        '"' => string_literal(start, after),
        '\'' => rune_literal(start, after),
        '`' => raw_literal(start, after),
        _ => {
            if is_letter(first) {
                read_word(start)
            } else {
                mark(start, first, after)
            }
        }
    }
}

/// The piece at the front of a text. Of an empty one, a fault.
pub(crate) fn read_piece(text: &str) -> Piece<'_>
    ensures { piece_of result ≡ piece (chars text.now) }
{
    match split_char(text) {
        Some((first, after)) => read_after(text, first, after),
        None => Piece::Stop(Breach::BadChar, text),
    }
}

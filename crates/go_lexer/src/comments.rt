ghost use Rattle.std.specs.Prelude.{◌≡◌, false};
ghost use Rattle.std.specs.Option.{option_map};
ghost use Rattle.std.specs.Str.{chars};
ghost use Rattle.go_lexer.specs.Comments.{line_comment, general_comment, general};
ghost use Rattle.go_lexer.specs.Pieces.{piece_of};

use crate::characters::{split_char, strip_pair};
use crate::classes::{Class, after_run};
use crate::pieces::{Breach, Piece};

/// A line comment, whose two slashes were taken.
pub(crate) fn line_comment(inside: &str) -> Piece<'_>
    ensures { piece_of result ≡ line_comment (chars inside.now) }
{
    Piece::Blank(false, after_run(Class::Line, inside))
}

/// Whether a general comment has a line feed, and the text after it.
fn after_general(inside: &str) -> Option<(bool, &str)>
    ensures { option_map (λ found. (found.0, chars found.1.now)) result ≡ general false (chars inside.now) }
{
    let mut rest = inside;
    let mut breaks = false;
    while let Some((first, after)) = split_char(rest) {
        if let Some(end) = strip_pair('*', '/', rest) {
            return Some((breaks, end));
        }
        breaks |= first == '\n';
        rest = after;
    }
    None
}

/// A general comment, whose opening was taken.
pub(crate) fn general_comment<'a>(start: &'a str, inside: &'a str) -> Piece<'a>
    ensures { piece_of result ≡ general_comment (chars start.now) (chars inside.now) }
{
    match after_general(inside) {
        Some((breaks, rest)) => Piece::Blank(breaks, rest),
        None => Piece::Stop(Breach::CutComment, start),
    }
}

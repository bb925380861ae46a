ghost use Rattle.std.specs.Prelude.{◌≡◌};
ghost use Rattle.std.specs.Str.{chars, encode_utf8_all};
ghost use Rattle.go_lexer.specs.Characters.{front_while, after_while};
ghost use Rattle.go_lexer.specs.Classes.{continues_name};
ghost use Rattle.go_lexer.specs.Pieces.{piece_of};
ghost use Rattle.go_lexer.specs.Words.{early_keyword, late_keyword, keyword_of, keyword_owes, word_piece, word};

use crate::classes::{Class, after_run, front};
use crate::pieces::Piece;
use crate::token_kinds::TokenKind;
use code_tables::Keyword;

macro_rules! first_equal {
    ($word:expr; $($text:literal => $keyword:ident),+) => {{
        $(if $word == $text.as_bytes() {
            return Some(Keyword::$keyword);
        })+
        None
    }};
}

/// The keyword that has these bytes, from `break` to `goto`.
fn early_keyword(word: &[u8]) -> Option<Keyword>
    ensures { result ≡ early_keyword word.now }
{
    first_equal!(
        word;
        "break" => Break, "case" => Case, "chan" => Chan, "const" => Const, "continue" => Continue,
        "default" => Default, "defer" => Defer, "else" => Else, "fallthrough" => Fallthrough, "for" => For,
        "func" => Func, "go" => Go, "goto" => Goto
    )
}

/// The keyword that has these bytes, from `if` to `var`.
fn late_keyword(word: &[u8]) -> Option<Keyword>
    ensures { result ≡ late_keyword word.now }
{
    first_equal!(
        word;
        "if" => If, "import" => Import, "interface" => Interface, "map" => Map, "package" => Package,
        "range" => Range, "return" => Return, "select" => Select, "struct" => Struct, "switch" => Switch,
        "type" => Type, "var" => Var
    )
}

/// The keyword that has these bytes.
fn keyword_of(word: &[u8]) -> Option<Keyword>
    ensures { result ≡ keyword_of word.now }
{
    match early_keyword(word) {
        Some(keyword) => Some(keyword),
        None => late_keyword(word),
    }
}

/// Whether a line that ends after the keyword ends with a semicolon.
fn keyword_owes(keyword: Keyword) -> bool
    ensures { result ≡ keyword_owes keyword }
{
    matches!(
        keyword,
        Keyword::Break | Keyword::Continue | Keyword::Fallthrough | Keyword::Return
    )
}

fn word_piece(keyword: Option<Keyword>, rest: &str) -> Piece<'_>
    ensures { piece_of result ≡ word_piece keyword (chars rest.now) }
{
    match keyword {
        Some(keyword) => Piece::Token(TokenKind::Word(keyword), keyword_owes(keyword), rest),
        None => Piece::Token(TokenKind::Ident, true, rest),
    }
}

/// The bytes of the letters and digits at the front of a text, and the text after them.
fn name(text: &str) -> (&[u8], &str)
    ensures bytes { result.0.now ≡ encode_utf8_all (front_while continues_name (chars text.now)) }
    ensures rest { chars result.1.now ≡ after_while continues_name (chars text.now) }
{
    let rest = after_run(Class::Name, text);
    (front(text, rest), rest)
}

/// The identifier or keyword at the front of a text that begins with a letter.
pub(crate) fn read_word(text: &str) -> Piece<'_>
    ensures { piece_of result ≡ word (chars text.now) }
{
    let (bytes, rest) = name(text);
    word_piece(keyword_of(bytes), rest)
}

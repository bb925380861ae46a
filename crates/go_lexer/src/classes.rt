ghost use Rattle.std.specs.Prelude.{◌≡◌, ◌≤◌, ◌-◌, ℕ, length, take};
ghost use Rattle.std.specs.Str.{chars};
ghost use Rattle.go_lexer.specs.Characters.{after_while};
ghost use Rattle.go_lexer.specs.Classes.{is_letter, continues_name, is_space, is_decimal, in_class};

use crate::characters::split_char;
use unicode::properties::GeneralCategory;

/// Whether a character is a letter of identifiers.
#[tactic(auto, unfolding(crate::specs::Classes::is_letter))]
pub(crate) fn is_letter(c: char) -> bool
    ensures { result ≡ is_letter c }
{
    matches!(
        GeneralCategory::for_char(c),
        GeneralCategory::UppercaseLetter
            | GeneralCategory::LowercaseLetter
            | GeneralCategory::TitlecaseLetter
            | GeneralCategory::ModifierLetter
            | GeneralCategory::OtherLetter
    ) || c == '_'
}

/// Whether a character may stand in an identifier after its first one.
#[tactic(auto, unfolding(crate::specs::Classes::continues_name))]
pub(crate) fn continues_name(c: char) -> bool
    ensures { result ≡ continues_name c }
{
    is_letter(c) || GeneralCategory::for_char(c) == GeneralCategory::DecimalNumber
}

pub(crate) fn is_space(c: char) -> bool
    ensures { result ≡ is_space c }
{
    c == ' ' || c == '\t' || c == '\r' || c == '\n'
}

pub(crate) fn is_decimal(c: char) -> bool
    ensures { result ≡ is_decimal c }
{
    c.is_digit(10)
}
/// What a run of characters is made of.
#[derive(Clone, Copy)]
pub(crate) enum Class {
    /// An identifier's letters and digits.
    Name,
    /// All but a line feed.
    Line,
    /// All but a back quote.
    Raw,
    /// Decimal digits and `_`.
    Digits,
    /// Hexadecimal digits and `_`.
    Hexadecimal,
}

fn is_in_class(class: Class, c: char) -> bool
    ensures { result ≡ in_class class c }
{
    match class {
        Class::Name => continues_name(c),
        Class::Line => c != '\n',
        Class::Raw => c != '`',
        Class::Digits => is_decimal(c) || c == '_',
        Class::Hexadecimal => c.is_digit(16) || c == '_',
    }
}

/// The text from the first character on that isn't of the class.
pub(crate) fn after_run(class: Class, text: &str) -> &str
    ensures run { chars result.now ≡ after_while (in_class class) (chars text.now) }
    ensures shorter { length result.now ≤ length text.now }
{
    let mut rest = text;
    while let Some((first, after)) = split_char(rest) {
        if !is_in_class(class, first) {
            break;
        }
        rest = after;
    }
    rest
}

/// The bytes of a text that stand before its rest.
pub(crate) fn front<'a>(text: &'a str, rest: &str) -> &'a [u8]
    requires { length rest.now ≤ length text.now }
    ensures { result.now ≡ take (length text.now - length rest.now) text.now }
{
    &text.as_bytes()[..text.len() - rest.len()]
}

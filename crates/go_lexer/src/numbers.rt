ghost use Rattle.std.specs.Prelude.{◌≡◌, ◌≤◌, IsTrue, option_map, is_some, ℕ, List, Bool, [], true};
ghost use Rattle.std.specs.Str.{chars};
ghost use Rattle.go_lexer.specs.Characters.{front_while, after_while};
ghost use Rattle.go_lexer.specs.Classes.{in_class, is_digit_class};
ghost use Rattle.go_lexer.specs.Numbers.{prefix_base, base_of, digits_class, mantissa, mantissa_of, exponent};
ghost use Rattle.go_lexer.specs.Numbers.{exponent_of, is_exponent_letter, after_sign, is_digits, is_led_digits};
ghost use Rattle.go_lexer.specs.Numbers.{is_digits_or_none, is_whole, is_decimal_mantissa, is_hexadecimal_mantissa};
ghost use Rattle.go_lexer.specs.Numbers.{is_unscaled, is_scaled, is_number, after_exponent, number_kind, number};
ghost use Rattle.go_lexer.specs.NumberGrammar.{IsNumber, IsNumberAt};
ghost use Rattle.go_lexer.specs.declared.token_kinds.TokenKind.{TokenKind};
ghost use Rattle.go_lexer.specs.Pieces.{piece_of, token};

use crate::characters::{split_char, strip};
use crate::classes::{Class, after_run, front};
use crate::pieces::{Breach, Piece};
use crate::token_kinds::TokenKind;

/// The base of a number's digits.
#[derive(Clone, Copy)]
pub(crate) enum Base {
    Decimal,
    Binary,
    Octal,
    Hexadecimal,
}

/// The front of a number, up to its exponent.
#[derive(Clone, Copy)]
struct Mantissa<'a> {
    base: Base,
    /// The digits before the point.
    whole: &'a [u8],
    /// The digits after the point, where there is one.
    fraction: Option<&'a [u8]>,
    rest: &'a str,
}

/// The exponent of a number.
#[derive(Clone, Copy)]
struct Exponent<'a> {
    letter: char,
    digits: &'a [u8],
    rest: &'a str,
}

/// A run of digits and `_`, and the text after it.
fn run(class: Class, text: &str) -> (&[u8], &str)
    requires { IsTrue (is_digit_class class) }
    ensures digits { result.0.now ≡ front_while (in_class class) (chars text.now) }
    ensures rest { chars result.1.now ≡ after_while (in_class class) (chars text.now) }
{
    let rest = after_run(class, text);
    (front(text, rest), rest)
}

fn prefix_base(letter: char) -> Option<Base>
    ensures { result ≡ prefix_base letter }
{
    match letter {
        'x' | 'X' => Some(Base::Hexadecimal),
        'o' | 'O' => Some(Base::Octal),
        'b' | 'B' => Some(Base::Binary),
        _ => None,
    }
}

/// The base of a number, and the text after its prefix.
fn read_base(text: &str) -> (Base, &str)
    ensures { (result.0, chars result.1.now) ≡ base_of (chars text.now) }
{
    let Some(rest) = strip('0', text) else {
        return (Base::Decimal, text);
    };
    let Some((letter, digits)) = split_char(rest) else {
        return (Base::Decimal, text);
    };
    match prefix_base(letter) {
        Some(base) => (base, digits),
        None => (Base::Decimal, text),
    }
}

fn digits_class(base: Base) -> Class
    ensures { result ≡ digits_class base }
{
    match base {
        Base::Hexadecimal => Class::Hexadecimal,
        _ => Class::Digits,
    }
}

fn read_mantissa(text: &str) -> Mantissa<'_>
    ensures { mantissa_of result ≡ mantissa (chars text.now) }
{
    let (base, digits) = read_base(text);
    let class = digits_class(base);
    let (whole, after) = run(class, digits);
    match strip('.', after) {
        Some(more) => {
            let (fraction, rest) = run(class, more);
            Mantissa {
                base,
                whole,
                fraction: Some(fraction),
                rest,
            }
        }
        None => Mantissa {
            base,
            whole,
            fraction: None,
            rest: after,
        },
    }
}

fn is_exponent_letter(base: Base, c: char) -> bool
    ensures { result ≡ is_exponent_letter base c }
{
    match base {
        Base::Hexadecimal => c == 'p' || c == 'P',
        _ => c == 'p' || c == 'P' || c == 'e' || c == 'E',
    }
}

fn after_sign(text: &str) -> &str
    ensures { chars result.now ≡ after_sign (chars text.now) }
{
    match split_char(text) {
        Some(('+' | '-', rest)) => rest,
        _ => text,
    }
}

fn read_exponent(base: Base, text: &str) -> Option<Exponent<'_>>
    ensures { option_map exponent_of result ≡ exponent base (chars text.now) }
{
    let (letter, after) = split_char(text)?;
    if !is_exponent_letter(base, letter) {
        return None;
    }
    let (digits, rest) = run(Class::Digits, after_sign(after));
    Some(Exponent {
        letter,
        digits,
        rest,
    })
}

/// Whether these are digits of a base, 2 to 16, with single `_` between them, and one at least.
pub fn is_digits(radix: u32, text: &[u8]) -> bool
    requires low { 2 ≤ radix }
    requires high { radix ≤ 16 }
    ensures { result ≡ is_digits radix text.now }
{
    let mut after_digit = false;
    for &byte in text {
        if byte == b'_' {
            if !after_digit {
                return false;
            }
            after_digit = false;
        } else {
            if !(byte as char).is_digit(radix) {
                return false;
            }
            after_digit = true;
        }
    }
    after_digit
}

/// The same, after one `_` or none, as they stand behind a prefix.
pub fn is_led_digits(radix: u32, text: &[u8]) -> bool
    requires low { 2 ≤ radix }
    requires high { radix ≤ 16 }
    ensures { result ≡ is_led_digits radix text.now }
{
    match text.split_first() {
        Some((b'_', digits)) => is_digits(radix, digits),
        _ => is_digits(radix, text),
    }
}

fn is_digits_or_none(radix: u32, text: &[u8]) -> bool
    requires low { 2 ≤ radix }
    requires high { radix ≤ 16 }
    ensures { result ≡ is_digits_or_none radix text.now }
{
    text.is_empty() || is_digits(radix, text)
}

fn is_whole(base: Base, imaginary: bool, digits: &[u8]) -> bool
    ensures { result ≡ is_whole base imaginary digits.now }
{
    match base {
        Base::Decimal => {
            if !imaginary && matches!(digits.first(), Some(b'0')) {
                is_digits(8, digits)
            } else {
                is_digits(10, digits)
            }
        }
        Base::Binary => is_led_digits(2, digits),
        Base::Octal => is_led_digits(8, digits),
        Base::Hexadecimal => is_led_digits(16, digits),
    }
}

fn is_decimal_mantissa(whole: &[u8], fraction: Option<&[u8]>) -> bool
    ensures { result ≡ is_decimal_mantissa whole.now (option_map (λ f. f.now) fraction.entry) }
{
    match fraction {
        None => is_digits(10, whole),
        Some(fraction) if whole.is_empty() => is_digits(10, fraction),
        Some(fraction) => is_digits(10, whole) && is_digits_or_none(10, fraction),
    }
}

fn is_hexadecimal_mantissa(whole: &[u8], fraction: Option<&[u8]>) -> bool
    ensures { result ≡ is_hexadecimal_mantissa whole.now (option_map (λ f. f.now) fraction.entry) }
{
    match fraction {
        None => is_led_digits(16, whole),
        Some(fraction) if whole.is_empty() => is_digits(16, fraction),
        Some(fraction) => is_led_digits(16, whole) && is_digits_or_none(16, fraction),
    }
}

/// Whether this is a number with no exponent.
fn is_unscaled(imaginary: bool, mantissa: Mantissa<'_>) -> bool
    ensures { result
        ≡ is_unscaled imaginary mantissa.entry.base mantissa.entry.whole.now
        (option_map (λ f. f.now) mantissa.entry.fraction) }
{
    match mantissa.base {
        Base::Decimal if mantissa.fraction.is_some() => {
            is_decimal_mantissa(mantissa.whole, mantissa.fraction)
        }
        base => mantissa.fraction.is_none() && is_whole(base, imaginary, mantissa.whole),
    }
}

/// Whether this is a number with an exponent.
fn is_scaled(mantissa: Mantissa<'_>, exponent: Exponent<'_>) -> bool
    ensures { result
        ≡ is_scaled mantissa.entry.base mantissa.entry.whole.now (option_map (λ f. f.now) mantissa.entry.fraction)
        exponent.entry.letter exponent.entry.digits.now }
{
    match mantissa.base {
        Base::Decimal => {
            (exponent.letter == 'e' || exponent.letter == 'E')
                && is_digits(10, exponent.digits)
                && is_decimal_mantissa(mantissa.whole, mantissa.fraction)
        }
        Base::Hexadecimal => {
            is_digits(10, exponent.digits)
                && is_hexadecimal_mantissa(mantissa.whole, mantissa.fraction)
        }
        Base::Binary | Base::Octal => false,
    }
}

fn is_number(imaginary: bool, mantissa: Mantissa<'_>, exponent: Option<Exponent<'_>>) -> bool
    ensures { result ≡ is_number imaginary (mantissa_of mantissa.entry) (option_map exponent_of exponent.entry) }
{
    match exponent {
        Some(exponent) => is_scaled(mantissa, exponent),
        None => is_unscaled(imaginary, mantissa),
    }
}

/// The text after the mantissa and the exponent.
fn after_exponent<'a>(mantissa: Mantissa<'a>, exponent: Option<Exponent<'a>>) -> &'a str
    ensures { chars result.now ≡ after_exponent (mantissa_of mantissa.entry) (option_map exponent_of exponent.entry) }
{
    match exponent {
        Some(exponent) => exponent.rest,
        None => mantissa.rest,
    }
}

/// The kind of a number that isn't imaginary.
fn number_kind(mantissa: Mantissa<'_>, exponent: Option<Exponent<'_>>) -> TokenKind
    ensures { result ≡ number_kind (option_map (λ f. f.now) mantissa.entry.fraction) (is_some exponent.entry) }
{
    if mantissa.fraction.is_some() || exponent.is_some() {
        TokenKind::Floating
    } else {
        TokenKind::Whole
    }
}

/// The number at the front of a text that begins with a digit, or with a point and a digit.
pub(crate) fn read_number(text: &str) -> Piece<'_>
    ensures { piece_of result ≡ number (chars text.now) }
{
    let mantissa = read_mantissa(text);
    let exponent = read_exponent(mantissa.base, mantissa.rest);
    let after = after_exponent(mantissa, exponent);
    let (kind, imaginary, rest) = match strip('i', after) {
        Some(rest) => (TokenKind::Imaginary, true, rest),
        None => (number_kind(mantissa, exponent), false, after),
    };
    if is_number(imaginary, mantissa, exponent) {
        Piece::Token(kind, true, rest)
    } else {
        Piece::Stop(Breach::BadNumber, text)
    }
}

/// What is read as a number is a number literal of the grammar, and a literal with nothing after it is read
/// as the number that it is.
pub fn number_literals()
    ensures taken { (text rest : List ℕ) (kind : TokenKind) (owes : Bool) → number text ≡ token kind owes rest
        → IsNumberAt kind text rest }
    ensures read { (text : List ℕ) (kind : TokenKind) → IsNumber kind text → number text ≡ token kind true [] }
{}

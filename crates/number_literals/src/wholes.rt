ghost use Rattle.std.specs.Prelude.{◌≡◌, ◌≤◌, ℕ, List, pos, IfOk, IfErr};
ghost use Rattle.go_lexer.specs.Numbers.{leads_with_zero};
ghost use Rattle.go_lexer.specs.TokenTexts.{IsTokenOf, bytes_at};
ghost use Rattle.go_lexer.specs.declared.token_kinds.Token.{Token};
ghost use Rattle.go_lexer.specs.declared.token_kinds.TokenKind.TheVariants.{Whole};
ghost use Rattle.number_literals.specs.Reading.{kept, answer, plain_of, led_of, prefix_radix, by_radix, zero_of};
ghost use Rattle.number_literals.specs.Reading.{whole_of};
ghost use Rattle.number_literals.specs.Wholes.{HasWhole, IsWholeFault};

use crate::digits::read;
use crate::faults::ValueFault;
use go_lexer::{is_digits, is_led_digits};

fn kept(value: Option<u128>) -> Result<u128, ValueFault>
    ensures { result ≡ kept value }
{
    match value {
        Some(value) => Ok(value),
        None => Err(ValueFault::Wide),
    }
}

/// The value of digits of a base, if they are that.
fn plain(base: u32, digits: &[u8]) -> Result<u128, ValueFault>
    requires low { 2 ≤ base }
    requires high { base ≤ 16 }
    ensures { result ≡ answer (plain_of base digits.now) }
{
    if is_digits(base, digits) {
        kept(read(base, digits))
    } else {
        Err(ValueFault::NotALiteral)
    }
}

/// The same, after one `_` or none.
fn led(base: u32, digits: &[u8]) -> Result<u128, ValueFault>
    requires low { 2 ≤ base }
    requires high { base ≤ 16 }
    ensures { result ≡ answer (led_of base digits.now) }
{
    if is_led_digits(base, digits) {
        kept(read(base, digits))
    } else {
        Err(ValueFault::NotALiteral)
    }
}

/// The base that the letter of a prefix says.
fn prefix_radix(letter: u8) -> Option<u32>
    ensures { result ≡ prefix_radix letter }
{
    match letter {
        b'x' | b'X' => Some(16),
        b'o' | b'O' => Some(8),
        b'b' | b'B' => Some(2),
        _ => None,
    }
}

/// The value of a literal, whose second character and the digits behind it these are.
fn after_zero(literal: &[u8], letter: u8, digits: &[u8]) -> Result<u128, ValueFault>
    ensures { result ≡ answer (by_radix literal.now digits.now (prefix_radix letter)) }
{
    match prefix_radix(letter) {
        Some(16) => led(16, digits),
        Some(8) => led(8, digits),
        Some(_) => led(2, digits),
        None => plain(8, literal),
    }
}

/// The value of a literal that begins with a zero.
fn zero(literal: &[u8]) -> Result<u128, ValueFault>
    ensures { result ≡ answer (zero_of literal.now) }
{
    match literal {
        [_, letter, digits @ ..] => after_zero(literal, *letter, digits),
        _ => plain(8, literal),
    }
}

fn leads_with_zero(literal: &[u8]) -> bool
    ensures { result ≡ leads_with_zero literal.now }
{
    matches!(literal.first(), Some(b'0'))
}

#[tactic(auto, unfolding(crate::specs::Reading::whole_of))]
fn read_whole(literal: &[u8]) -> Result<u128, ValueFault>
    ensures { result ≡ answer (whole_of literal.now) }
{
    if leads_with_zero(literal) {
        zero(literal)
    } else {
        plain(10, literal)
    }
}

/// The value of an integer literal, of at most 2^127 - 1.
pub fn whole(literal: &[u8]) -> Result<i128, ValueFault>
    ensures found { IfOk result (λ v. (n : ℕ) × HasWhole literal.now n × (v ≡ pos n)) }
    ensures fault { IfErr result (λ f. IsWholeFault literal.now f) }
{
    match read_whole(literal) {
        Ok(value) => Ok(value as i128),
        Err(fault) => Err(fault),
    }
}

/// A literal has one value.
pub fn one_whole()
    ensures { (literal : List ℕ) (n m : ℕ) → HasWhole literal n → HasWhole literal m → n ≡ m }
{}

/// Each token of a source that is an integer literal has a value.
pub fn each_whole()
    ensures { (source : List ℕ) (t : Token) → IsTokenOf source t → t.kind ≡ Whole
        → (n : ℕ) × HasWhole (bytes_at source t) n }
{}

//! The sizes, codes and prefixes of whole constants.

ghost use Rattle.std.specs.Prelude.{◌≡◌, ◌==◌, ◌&&◌, ◌%◌, ◌<◌, ◌≤◌, ◌^◌, ◌∷◌, ℕ, length, drop, slice_index, is_some};
ghost use Rattle.std.specs.Prelude.{IfOk, IfSome, IfNone, IsTrue, ◌↔◌};
ghost use Rattle.wire_bytes.specs.Whole.{IsGreatestLength, Whole, in_range, bound_of, code_of, prefix_of, small_limit};
ghost use Rattle.wire_bytes.specs.Whole.{size_in, length_behind, value_of, with_sign, judged, beyond};

use crate::fault::ByteFault;

/// A code below this is a byte of its own.
pub(crate) fn small_limit(signed: bool, max: u8) -> u16
    requires { max ≤ 64 }
    ensures { result ≡ small_limit signed max }
{
    if max == 1 {
        256
    } else if signed {
        256 - 2 * u16::from(max)
    } else {
        256 - u16::from(max)
    }
}

/// The value of a code, which is a byte.
pub(crate) fn value_of(signed: bool, code: u8) -> i128
    ensures { result ≡ value_of signed code }
{
    let half = i128::from(code / 2);
    if !signed {
        i128::from(code)
    } else if code % 2 == 0 {
        half
    } else {
        -half - 1
    }
}

/// How many bytes stand behind a prefix.
pub(crate) fn length_behind(signed: bool, prefix: u8) -> u16
    ensures { result ≡ length_behind signed prefix }
{
    if signed {
        (257 - u16::from(prefix)) / 2
    } else {
        256 - u16::from(prefix)
    }
}

/// The value that a prefix makes of the bytes of a size, or what is wrong with them. A fault stands at the prefix.
pub(crate) fn judge(
    signed: bool,
    max: u8,
    at: u64,
    prefix: u8,
    size: &[u8],
) -> Result<i128, ByteFault>
    requires length { IsGreatestLength max }
    requires behind { length size.now ≡ length_behind signed prefix }
    requires above { small_limit signed max ≤ prefix }
    ensures spelled { IfOk result (λ v. Whole signed max (prefix ∷ size.now) v) }
    ensures exact { result ≡ judged signed max at prefix size.now }
{
    value_of_size(signed, max, at, prefix, size)
}

fn value_of_size(signed: bool, max: u8, at: u64, prefix: u8, size: &[u8]) -> Result<i128, ByteFault>
    requires length { IsGreatestLength max }
    requires some { 0 < length size.now }
    ensures { result ≡ judged signed max at prefix size.now }
{
    if size[0] == 0 {
        return Err(ByteFault::Number { at });
    }
    let Some(number) = size_in(size) else {
        return Err(beyond(max, at, prefix));
    };
    let negative = is_negative(signed, prefix);
    if is_short(signed, max, negative, number) {
        return Err(ByteFault::Number { at });
    }
    of_type(signed, max, negative, number).ok_or(beyond(max, at, prefix))
}

fn is_negative(signed: bool, prefix: u8) -> bool
    ensures { result ≡ (signed && (prefix % 2 == 1)) }
{
    signed && prefix % 2 == 1
}

fn beyond(max: u8, at: u64, prefix: u8) -> ByteFault
    ensures { result ≡ beyond max at prefix }
{
    if max == 64 {
        ByteFault::Wide { at }
    } else {
        ByteFault::Range {
            at,
            value: u64::from(prefix),
        }
    }
}

/// The number whose bytes these are, the highest first, if it has 128 bits.
fn size_in(size: &[u8]) -> Option<u128>
    ensures found { IfSome result (λ n. n ≡ size_in size.now) }
    ensures some { IfSome result (λ n. 0 < slice_index size.now 0 → 0 < n) }
    ensures large { IfNone result (2 ^ 128 ≤ size_in size.now) }
{
    let mut number: u128 = 0;
    for byte in size {
        if number >= 1 << 120 {
            return None;
        }
        number = number * 256 + u128::from(*byte);
    }
    Some(number)
}

/// Whether a value of this size and sign has a code that is a byte of its own.
pub(crate) fn is_short(signed: bool, max: u8, negative: bool, number: u128) -> bool
    requires length { max ≤ 64 }
    requires sign { IsTrue negative → IsTrue signed }
    ensures { IsTrue result ↔ (code_of signed (with_sign negative number) < small_limit signed max) }
{
    let limit = small_limit(signed, max);
    if number >= 256 {
        return false;
    }
    let number = number as u16;
    if !signed {
        number < limit
    } else if negative {
        2 * number <= limit
    } else {
        2 * number < limit
    }
}

/// A value of the type has this size at the most, or a smaller one if it isn't below 0.
pub(crate) fn bound_of(signed: bool, max: u8) -> u128
    requires { IsGreatestLength max }
    ensures bound { result ≡ bound_of signed max }
    ensures small { result ≤ 2 ^ 127 }
{
    match max {
        1 => if signed { 1 << 7 } else { 1 << 8 },
        2 => if signed { 1 << 15 } else { 1 << 16 },
        4 => if signed { 1 << 31 } else { 1 << 32 },
        8 => if signed { 1 << 63 } else { 1 << 64 },
        _ => 1 << 127,
    }
}

/// The value of this size and sign, if it is one of the type.
fn of_type(signed: bool, max: u8, negative: bool, number: u128) -> Option<i128>
    requires length { IsGreatestLength max }
    requires sign { IsTrue negative → IsTrue signed }
    requires some { 0 < number }
    ensures found { IfSome result (λ v. v ≡ with_sign negative number) }
    ensures fits { is_some result ≡ in_range signed max (with_sign negative number) }
{
    let bound = bound_of(signed, max);
    if negative {
        if number > bound {
            return None;
        }
        Some(-((number - 1) as i128) - 1)
    } else {
        if number >= bound {
            return None;
        }
        Some(number as i128)
    }
}

/// The code of a value of this size and sign.
fn code_of(signed: bool, negative: bool, number: u8) -> u8
    requires sign { IsTrue negative → IsTrue signed }
    requires byte { code_of signed (with_sign negative number) < 256 }
    ensures { result ≡ code_of signed (with_sign negative number) }
{
    if !signed {
        number
    } else if negative && number > 0 {
        (2 * u16::from(number) - 1) as u8
    } else {
        (2 * u16::from(number)) as u8
    }
}

/// The byte before a size of so many bytes, which tells how many they are and the sign.
fn prefix_of(signed: bool, negative: bool, len: u16) -> u8
    requires sign { IsTrue negative → IsTrue signed }
    requires some { 1 ≤ len }
    requires few { len ≤ 64 }
    ensures { (n : ℕ) → 0 < n → result ≡ prefix_of signed (with_sign negative n) len }
{
    let prefix = if !signed {
        256 - len
    } else if negative {
        257 - 2 * len
    } else {
        256 - 2 * len
    };
    prefix as u8
}

/// Spells a value of the type at the end of the room, and tells where there.
pub(crate) fn spell_whole(value: i128, signed: bool, max: u8, room: &mut [u8; 17]) -> usize
    requires length { IsGreatestLength max }
    requires of_type { IsTrue (in_range signed max value) }
    ensures inside { result ≤ 17 }
    ensures spelled { Whole signed max (drop result room.new) value }
{
    let (negative, number) = sign_and_size(value);
    if is_short(signed, max, negative, number) {
        room[16] = code_of(signed, negative, number as u8);
        return 16;
    }
    let start = spell_size(number, room);
    room[start - 1] = prefix_of(signed, negative, (17 - start) as u16);
    start - 1
}

fn sign_and_size(value: i128) -> (bool, u128)
    ensures parts { with_sign result.0 result.1 ≡ value }
    ensures below { IsTrue result.0 → 0 < result.1 }
{
    (value < 0, value.unsigned_abs())
}

/// The bytes of a size that isn't 0, the highest first, at the end of the room.
fn spell_size(number: u128, room: &mut [u8; 17]) -> usize
    requires { 0 < number }
    ensures start { (1 ≤ result) × (result ≤ 16) }
    ensures spelled { size_in (drop result room.new) ≡ number }
    ensures highest { 0 < slice_index (drop result room.new) 0 }
    ensures bytes { (i : ℕ) → slice_index (drop result room.new) i < 256 }
{
    let mut start = 17;
    let mut rest = number;
    while rest > 0 {
        start -= 1;
        room[start] = (rest % 256) as u8;
        rest /= 256;
    }
    start
}

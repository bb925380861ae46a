ghost use Rattle.std.specs.Prelude.{◌≡◌, ◌≤◌, ◌<◌, ◌+◌, ◌*◌, ◌^◌, IfSome};
ghost use Rattle.number_literals.specs.Reading.{below, step, run};

/// Above all values that are kept.
const LIMIT: u128 = 1 << 127;

/// What a digit makes of the value of the digits before it.
fn next(base: u32, value: u128, digit: u32) -> Option<u128>
    requires high { base ≤ 16 }
    requires small { value < 2 ^ 127 }
    ensures { result ≡ below (value * base + digit) }
{
    let scaled = value.checked_mul(u128::from(base))?;
    let sum = scaled.checked_add(u128::from(digit))?;
    if sum < LIMIT { Some(sum) } else { None }
}

/// What a byte makes of the value of the digits before it.
fn step(base: u32, value: u128, byte: u8) -> Option<u128>
    requires low { 2 ≤ base }
    requires high { base ≤ 16 }
    requires small { value < 2 ^ 127 }
    ensures exact { result ≡ step base value byte }
    ensures small { IfSome result (λ n. n < 2 ^ 127) }
{
    if byte == b'_' {
        return Some(value);
    }
    let digit = char::from(byte).to_digit(base)?;
    next(base, value, digit)
}

/// The value of digits with `_` between them, where it is kept.
pub(crate) fn read(base: u32, digits: &[u8]) -> Option<u128>
    requires low { 2 ≤ base }
    requires high { base ≤ 16 }
    ensures { result ≡ run base digits.now 0 }
{
    let mut value = 0;
    for &byte in digits {
        value = step(base, value, byte)?;
    }
    Some(value)
}

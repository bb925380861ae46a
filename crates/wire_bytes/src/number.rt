//! Numbers at the front of a slice.

ghost use Rattle.std.specs.Prelude.{◌≡◌, ◌<◌, length, IfOk, IsErrOf};
ghost use Rattle.wire_bytes.specs.Reading.{seen};
ghost use Rattle.wire_bytes.specs.Uvarint.{BeginsWith, IsCutShort, BeginsNone, uvarint_in};

/// Why no number stands at the front of some bytes.
#[derive(Clone, Copy, Debug, PartialEq, Eq)]
pub(crate) enum Unspelled {
    /// The bytes end within a number.
    Cut,
    /// No number begins so.
    Wrong,
}

/// The number at the front, and the bytes after it. It looks at ten bytes at the most.
pub(crate) fn leading_uvarint(bytes: &[u8]) -> Result<(u64, &[u8]), Unspelled>
    ensures found { IfOk result (λ x. BeginsWith bytes.now x.0 x.1.now) }
    ensures cut { IsErrOf result Unspelled.Cut → IsCutShort bytes.now }
    ensures wrong { IsErrOf result Unspelled.Wrong → BeginsNone bytes.now }
    ensures shorter { IfOk result (λ x. length x.1.now < length bytes.now) }
    ensures exact { seen (λ x. (x.0, x.1.now)) result ≡ uvarint_in bytes.now }
{
    sum_of_groups(bytes)
}

fn sum_of_groups(bytes: &[u8]) -> Result<(u64, &[u8]), Unspelled>
    ensures shorter { IfOk result (λ x. length x.1.now < length bytes.now) }
    ensures exact { seen (λ x. (x.0, x.1.now)) result ≡ uvarint_in bytes.now }
{
    let mut sum: u64 = 0;
    let mut weight: u64 = 1;
    for i in 0..9 {
        if i >= bytes.len() {
            return Err(Unspelled::Cut);
        }
        let byte = bytes[i];
        if byte < 128 {
            if byte == 0 && i > 0 {
                return Err(Unspelled::Wrong);
            }
            return Ok((sum + u64::from(byte) * weight, &bytes[i + 1..]));
        }
        sum += u64::from(byte - 128) * weight;
        weight *= 128;
    }
    // Nine groups have 63 bits, so a tenth has one.
    if bytes.len() <= 9 {
        return Err(Unspelled::Cut);
    }
    if bytes[9] != 1 {
        return Err(Unspelled::Wrong);
    }
    Ok((sum + weight, &bytes[10..]))
}

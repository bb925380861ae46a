//! From one line or column to the next.

ghost use Rattle.std.specs.Prelude.{◌≡◌, if◌then◌else◌};
ghost use Rattle.position_codec.specs.Place.{delta, half, is_odd, moved};

/// Twice the difference, and one more where something follows.
pub(crate) fn delta(from: u32, to: u32, more: bool) -> i64
    ensures { result ≡ delta from to more }
{
    let twice = 2 * (i64::from(to) - i64::from(from));
    if more { twice + 1 } else { twice }
}

/// Whether something follows.
pub(crate) fn is_odd(number: i64) -> bool
    ensures { result ≡ is_odd number }
{
    number % 2 != 0
}

/// Where a number moves a line or column by its half, which has to be one again.
pub(crate) fn moved(before: u32, number: i64) -> Option<u32>
    ensures { result ≡ moved before (half number) }
{
    if number >= 0 {
        let to = u64::from(before) + number as u64 / 2;
        if to > u64::from(u32::MAX) {
            return None;
        }
        Some(to as u32)
    } else {
        let back = (-(number + 1)) as u64 / 2;
        if back >= u64::from(before) {
            return None;
        }
        Some((u64::from(before) - back - 1) as u32)
    }
}

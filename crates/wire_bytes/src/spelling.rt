//! Spelling numbers.

ghost use Rattle.std.specs.Prelude.{◌≡◌, ◌≤◌, take};
ghost use Rattle.wire_bytes.specs.Uvarint.{Uvarint};
ghost use Rattle.wire_bytes.specs.Varint.{number_of};

/// Spells the number at the front of the room, and tells how many bytes it takes.
pub(crate) fn spell_uvarint(number: u64, room: &mut [u8; 10]) -> usize
    ensures inside { result ≤ 10 }
    ensures spelled { Uvarint (take result room.new) number }
{
    let mut rest = number;
    let mut len = 0;
    while rest >= 128 {
        room[len] = (rest % 128) as u8 + 128;
        rest /= 128;
        len += 1;
    }
    room[len] = rest as u8;
    len + 1
}

/// The number as which a signed number is spelled: 2x from 0 on, and -2x - 1 below 0.
pub fn uvarint_of(x: i64) -> u64
    ensures { result ≡ number_of x }
{
    if x >= 0 {
        2 * x as u64
    } else {
        2 * (-(x + 1)) as u64 + 1
    }
}

//! What stands before the sections.

ghost use Rattle.std.specs.Prelude.{◌≡◌, Some};
ghost use Rattle.wire_bytes.specs.Reading.{GivesBy};
ghost use Rattle.name_index.specs.FirstBreach.{header_at};
ghost use Rattle.name_index.specs.Records.{header_of};

use wire_bytes::{ByteFault, Cursor};

/// The format version, 1 or 2, and the sizes of the two sections.
#[derive(Clone, Copy, Debug)]
pub(crate) struct HeaderRecord {
    pub(crate) version: u8,
    pub(crate) strings: u64,
    pub(crate) body: u64,
}

/// The letter `i`, the format version and the sizes.
#[tactic(auto, unfolding(crate::specs::FirstBreach::header_at))]
pub(crate) fn read_header(cursor: &mut Cursor<'_>) -> Result<HeaderRecord, ByteFault>
    ensures end { cursor.new.end ≡ cursor.old.end }
    ensures exact { GivesBy (λ f. Some f) (λ h. (header_of h, cursor.new)) result (header_at cursor.old) }
{
    let at = cursor.place() as u64;
    let letter = cursor.byte()?;
    if letter != b'i' {
        return Err(ByteFault::Tag {
            at,
            value: u64::from(letter),
        });
    }
    let version = cursor.uvarint()?;
    if version != 1 && version != 2 {
        return Err(ByteFault::Version { found: version });
    }
    let strings = cursor.uvarint()?;
    let body = cursor.uvarint()?;
    Ok(HeaderRecord {
        version: version as u8,
        strings,
        body,
    })
}

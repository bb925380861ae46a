//! The names of one package.

ghost use Rattle.std.specs.Prelude.{◌≡◌, ◌≤◌, length, Some, IfOk, OnOk, map, ◌<◌, ◌+◌};
ghost use Rattle.std.specs.Option.{option_copied};
ghost use Rattle.std.specs.List.{AllByRecursion};
ghost use Rattle.wire_bytes.specs.Reading.{GivesBy};
ghost use Rattle.wire_bytes.specs.Order.{rises};
ghost use Rattle.name_index.specs.FirstBreach.{text_offset_at, entry_at, entries_at};
ghost use Rattle.file_parts.specs.Paths.{text_of, IsInside};
ghost use Rattle.name_index.specs.Records.{entry_of, fault_of};
ghost use Rattle.name_index.specs.declared.limits.TheConstants.{FILE_LIMIT};

use crate::records::EntryRecord;
use file_parts::TextSpan;
use std::alloc::Global;
use std::cmp::Ordering;
use wire_bytes::{ByteFault, Cursor, ReadFault, text_span};

/// An offset into the string section, and where the text stands to which it leads.
#[tactic(auto, unfolding(crate::specs::FirstBreach::text_offset_at))]
pub(crate) fn read_text(
    cursor: &mut Cursor<'_>,
    strings: &[u8],
) -> Result<(u64, TextSpan), ByteFault>
    requires { length strings.now ≤ FILE_LIMIT }
    ensures inside { IfOk result (λ x. IsInside strings.now x.1) }
    ensures progress { OnOk result (length cursor.new.left < length cursor.old.left) }
    ensures exact { GivesBy (λ f. Some f) (λ x. ((x.0, text_of strings.now x.1), cursor.new)) result
        (text_offset_at strings.now cursor.old) }
{
    let at = cursor.place() as u64;
    let offset = cursor.uvarint()?;
    match text_span(strings, offset) {
        Some(span) => Ok((
            offset,
            TextSpan {
                start: span.start as u32,
                end: span.end as u32,
            },
        )),
        None => Err(ByteFault::Range { at, value: offset }),
    }
}

/// Whether a text is above the one before it.
pub(crate) fn is_rising(last: Option<&[u8]>, text: &[u8]) -> bool
    ensures { result ≡ rises (option_copied last.entry) text.now }
{
    match last {
        None => true,
        Some(last) => last.cmp(text) == Ordering::Less,
    }
}

/// A name above the one before it, and its offset in the data section, which has this size.
#[tactic(auto, unfolding(crate::specs::FirstBreach::entry_at))]
fn read_entry(
    cursor: &mut Cursor<'_>,
    strings: &[u8],
    size: u32,
    last: Option<&[u8]>,
) -> Result<EntryRecord, ByteFault>
    requires { length strings.now ≤ FILE_LIMIT }
    ensures inside { IfOk result (λ e. IsInside strings.now e.name) }
    ensures progress { OnOk result (length cursor.new.left < length cursor.old.left) }
    ensures exact { GivesBy (λ f. Some f) (λ e. (entry_of strings.now e, cursor.new)) result
        (entry_at strings.now size (option_copied last.entry) cursor.old) }
{
    let at = cursor.place() as u64;
    let (_, name) = read_text(cursor, strings)?;
    if !is_rising(last, &strings[name.start as usize..name.end as usize]) {
        return Err(ByteFault::Order { at });
    }
    let at = cursor.place() as u64;
    let offset = cursor.uvarint()?;
    if offset >= u64::from(size) {
        return Err(ByteFault::Range { at, value: offset });
    }
    Ok(EntryRecord {
        name,
        offset: offset as u32,
    })
}

/// That many names, each above the one before it.
pub(crate) fn read_entries(
    alloc: Global,
    cursor: &mut Cursor<'_>,
    strings: &[u8],
    size: u32,
    count: u64,
) -> Result<Vec<EntryRecord>, ReadFault>
    requires { length strings.now ≤ FILE_LIMIT }
    ensures inside { IfOk result (λ v. AllByRecursion (λ e. IsInside strings.now e.name) v.items) }
    ensures progress { IfOk result (λ v. length v.items + length cursor.new.left ≤ length cursor.old.left) }
    ensures exact { GivesBy fault_of (λ v. (map (entry_of strings.now) v.items, cursor.new)) result
        (entries_at strings.now size count cursor.old) }
{
    let mut entries = Vec::new(alloc);
    let mut last: Option<&[u8]> = None;
    for _ in 0..count {
        let entry = read_entry(cursor, strings, size, last)?;
        last = Some(&strings[entry.name.start as usize..entry.name.end as usize]);
        entries.push(entry)?;
    }
    Ok(entries)
}

//! Reading a full file, part by part.

ghost use Rattle.std.specs.Prelude.{◌≡◌, ◌≤◌, ◌+◌, length, Some, IfOk};
ghost use Rattle.std.specs.List.{AllByRecursion};
ghost use Rattle.wire_bytes.specs.Reading.{GivesBy};
ghost use Rattle.name_index.specs.FullFile.{content};
ghost use Rattle.name_index.specs.Envelope.{Envelope};
ghost use Rattle.name_index.specs.FirstBreach.{section_at, full_file_of};
ghost use Rattle.file_parts.specs.Paths.{ArePaths};
ghost use Rattle.name_index.specs.Records.{section_of, file_of, fault_of, IsLayout, spelled_paths};
ghost use Rattle.name_index.specs.declared.limits.TheConstants.{FILE_LIMIT};

mod entries;
mod header;
mod packages;

use crate::records::{Layout, SectionRecord, path_spans, section_bytes};
use header::read_header;
use packages::read_index;
use std::alloc::Global;
use wire_bytes::{ByteFault, Cursor, ReadFault};

/// A section of this size, which lies inside the file.
#[tactic(auto, unfolding(crate::specs::FirstBreach::section_at))]
fn read_section(cursor: &mut Cursor<'_>, size: u64) -> Result<SectionRecord, ByteFault>
    requires { cursor.old.end ≤ FILE_LIMIT }
    ensures inside { IfOk result (λ s. s.at + s.len + length cursor.new.left ≡ cursor.old.end) }
    ensures end { cursor.new.end ≡ cursor.old.end }
    ensures exact { GivesBy (λ f. Some f) (λ s. (section_of s, cursor.new)) result (section_at size cursor.old) }
{
    let at = cursor.place();
    let section = cursor.take(size)?;
    Ok(SectionRecord {
        at: at as u32,
        len: section.len() as u32,
    })
}

/// The parts of a full file of the path `own`, or the first breach of its form. It goes over the bytes once, and looks
/// at no byte of the data section.
pub(crate) fn read_layout(alloc: Global, bytes: &[u8], own: &[u8]) -> Result<Layout, ReadFault>
    requires { length bytes.now ≤ FILE_LIMIT }
    ensures inside { IfOk result (λ l. IsLayout bytes.now l) }
    ensures found { IfOk result (λ l. Envelope own.now bytes.now (file_of own.now bytes.now l)) }
    ensures paths { IfOk result (λ l. ArePaths own.now (spelled_paths bytes.now l)) }
    ensures exact { GivesBy fault_of (λ l. file_of own.now bytes.now l) result (full_file_of own.now bytes.now) }
{
    read_parts(alloc, bytes, own)
}

#[tactic(auto, unfolding(crate::specs::FirstBreach::full_file_of))]
fn read_parts(alloc: Global, bytes: &[u8], own: &[u8]) -> Result<Layout, ReadFault>
    requires { length bytes.now ≤ FILE_LIMIT }
    ensures inside { IfOk result (λ l. IsLayout bytes.now l) }
    ensures paths { IfOk result (λ l. ArePaths own.now (spelled_paths bytes.now l)) }
    ensures exact { GivesBy fault_of (λ l. file_of own.now bytes.now l) result (full_file_of own.now bytes.now) }
{
    let mut cursor = Cursor::new(bytes, 0, bytes.len());
    let header = read_header(&mut cursor)?;
    let strings = read_section(&mut cursor, header.strings)?;
    let body = read_section(&mut cursor, header.body)?;
    let texts = section_bytes(bytes, strings);
    let packages = read_index(alloc, &mut cursor, own, texts, body.len)?;
    if !cursor.is_at_end() {
        let at = cursor.place() as u64;
        return Err(ReadFault::Bytes(ByteFault::Trailing { at }));
    }
    let paths = path_spans(alloc, packages.as_slice())?;
    Ok(Layout {
        version: header.version,
        strings,
        body,
        packages,
        paths,
    })
}

//! Writing a position.

ghost use Rattle.std.specs.Prelude.{◌≡◌, ◌⊎◌, false, OnOk, OnErr};
ghost use Rattle.wire_bytes.specs.Begins.{Appends};
ghost use Rattle.wire_bytes.specs.Section.{section_of, with_text};
ghost use Rattle.wire_bytes.specs.Varint.{Varint};
ghost use Rattle.position_codec.specs.Place.{delta, place_at, place_of, same_file};
ghost use Rattle.position_codec.specs.Steps.{AppendsBoth, NamesFile};
ghost use Rattle.position_codec.specs.Calls.{Wrote, IsMore, with_file};

use crate::deltas::delta;
use crate::previous::PrevPos;
use go_values::{Bytes, Pos};
use std::alloc::{AllocError, Global};
use wire_bytes::{Strings, Writer};

/// Writes a position as it is spelled after the one before it, and makes it the one before the next. A file that
/// differs from the one before is added to the strings. After a refusal for want of memory some of the bytes may be
/// written, and the file may be among the strings, but the position before the next one is as it was.
pub fn write_full(
    alloc: Global,
    w: &mut Writer,
    strings: &mut Strings,
    prev: &mut PrevPos,
    pos: &Pos,
) -> Result<(), AllocError>
    ensures written { OnOk result (Wrote (section_of strings.new) prev.old prev.new w.old w.new (place_of pos.now)) }
    ensures strings { OnOk result (strings.new ≡ with_file strings.old prev.old.place (place_of pos.now)) }
    ensures refused { OnErr result (prev.new ≡ prev.old) }
    ensures kept_strings { OnErr result ((strings.new ≡ strings.old)
        ⊎ (strings.new ≡ with_file strings.old prev.old.place (place_of pos.now))) }
    ensures kept_bytes { IsMore w.old w.new }
{
    match pos {
        Pos::Nowhere => write_place(alloc, w, strings, prev, &[], 0, 0),
        Pos::At { file, line, column } => write_place(
            alloc,
            w,
            strings,
            prev,
            file.as_slice(),
            *line,
            *column,
        ),
    }
}

fn write_place(
    alloc: Global,
    w: &mut Writer,
    strings: &mut Strings,
    prev: &mut PrevPos,
    file: &[u8],
    line: u32,
    column: u32,
) -> Result<(), AllocError>
    ensures written { OnOk result
        (Wrote (section_of strings.new) prev.old prev.new w.old w.new (place_at file.now line column)) }
    ensures strings { OnOk result (strings.new ≡ with_file strings.old prev.old.place (place_at file.now line column)) }
    ensures refused { OnErr result (prev.new ≡ prev.old) }
    ensures kept_strings { OnErr result ((strings.new ≡ strings.old)
        ⊎ (strings.new ≡ with_file strings.old prev.old.place (place_at file.now line column))) }
    ensures kept_bytes { IsMore w.old w.new }
{
    if prev.file.as_slice() != file {
        return write_file(alloc, w, strings, prev, file, line, column);
    }
    if prev.line != line {
        return write_line(w, prev, line, column);
    }
    write_column(w, prev, column)
}

/// Writes a place on the same line of the same file.
fn write_column(w: &mut Writer, prev: &mut PrevPos, column: u32) -> Result<(), AllocError>
    ensures written { OnOk result (Appends Varint w.old (delta prev.old.place.column column false) w.new) }
    ensures moved { OnOk result (prev.new ≡ same_file prev.old prev.old.place.line column) }
    ensures refused { OnErr result (prev.new ≡ prev.old) }
    ensures kept_bytes { IsMore w.old w.new }
{
    w.put_varint(delta(prev.column, column, false))?;
    prev.column = column;
    Ok(())
}

/// Writes a place on another line of the same file.
fn write_line(w: &mut Writer, prev: &mut PrevPos, line: u32, column: u32) -> Result<(), AllocError>
    ensures written { OnOk result (AppendsBoth prev.old.place line column false w.old w.new) }
    ensures moved { OnOk result (prev.new ≡ same_file prev.old line column) }
    ensures refused { OnErr result (prev.new ≡ prev.old) }
    ensures kept_bytes { IsMore w.old w.new }
{
    put_both(w, prev, line, column, false)?;
    prev.line = line;
    prev.column = column;
    Ok(())
}

/// Writes a place in another file.
fn write_file(
    alloc: Global,
    w: &mut Writer,
    strings: &mut Strings,
    prev: &mut PrevPos,
    file: &[u8],
    line: u32,
    column: u32,
) -> Result<(), AllocError>
    ensures written { OnOk result
        (NamesFile (section_of strings.new) prev.old.place prev.new file.now line column w.old w.new) }
    ensures strings { (strings.new ≡ strings.old) ⊎ (strings.new ≡ with_text strings.old file.now) }
    ensures added { OnOk result (strings.new ≡ with_text strings.old file.now) }
    ensures refused { OnErr result (prev.new ≡ prev.old) }
    ensures kept_bytes { IsMore w.old w.new }
{
    let copy = Bytes::from_slice(alloc, file)?;
    let offset = strings.add(file)?;
    put_both(w, prev, line, column, true)?;
    w.put_uvarint(offset)?;
    prev.file = copy;
    prev.line = line;
    prev.column = column;
    prev.name = Some(offset);
    Ok(())
}

/// Writes the number of the column, and that of the line, with the mark that more follows.
fn put_both(
    w: &mut Writer,
    prev: &PrevPos,
    line: u32,
    column: u32,
    more: bool,
) -> Result<(), AllocError>
    ensures written { OnOk result (AppendsBoth prev.now.place line column more w.old w.new) }
    ensures kept_bytes { IsMore w.old w.new }
{
    w.put_varint(delta(prev.column, column, true))?;
    w.put_varint(delta(prev.line, line, more))
}

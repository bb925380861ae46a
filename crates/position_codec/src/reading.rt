//! Reading a position.

ghost use Rattle.std.specs.Prelude.{◌≡◌, ◌≢◌, ◌+◌, ◌≤◌, length, Some, pos, IfOk, IfErr, OnOk, OnErr};
ghost use Rattle.wire_bytes.specs.Begins.{Begins};
ghost use Rattle.wire_bytes.specs.Reading.{GivesBy};
ghost use Rattle.wire_bytes.specs.Text.{Text};
ghost use Rattle.wire_bytes.specs.Uvarint.{BeginsWith};
ghost use Rattle.wire_bytes.specs.Varint.{Varint};
ghost use Rattle.position_codec.specs.Place.{half, moved, moved_on, pos_of, place_at};
ghost use Rattle.position_codec.specs.Calls.{Found, ReadsPosition, SpellsNone};
ghost use Rattle.file_parts.specs.FileParts.{strings_of};
ghost use Rattle.position_codec.specs.Position.{Position, moved_at, file_at, line_at, position_at};
ghost use Rattle.position_codec.specs.Steps.{now_of};

use crate::deltas::{is_odd, moved};
use crate::previous::PrevPos;
use file_parts::Parts;
use go_values::{Bytes, Pos};
use std::alloc::{AllocError, Global};
use wire_bytes::{ByteFault, Cursor, ReadFault, text_at, uvarint_of};

/// Reads the next position as it is spelled after the one before it, and makes it the one before the next. After a
/// refusal the cursor and the position before the next one are as they were.
///
/// Each number is judged as soon as it is read. A column or line that leaves the 32 bits is `Range` at its number, with
/// the number's uvarint as value. A line's number 0, and the offset of the name of the same file, are `Number`. An
/// offset at which no text is spelled is `Range`.
pub fn read_full(
    alloc: Global,
    cursor: &mut Cursor<'_>,
    parts: &Parts<'_>,
    prev: &mut PrevPos,
) -> Result<Pos, ReadFault>
    requires strings { parts.now.strings_at + parts.now.strings_len ≤ length parts.now.file.now }
    requires body { parts.now.body_at + parts.now.body_len ≤ length parts.now.file.now }
    ensures found { IfOk result (λ pos. Found (strings_of parts.now) prev.old prev.new cursor.old cursor.new pos) }
    ensures none { IfErr result (SpellsNone (strings_of parts.now) prev.old.place cursor.old.left) }
    ensures exact { ReadsPosition result prev.old prev.new cursor.old cursor.new
        (position_at (strings_of parts.now) prev.old.place cursor.old) }
{
    read_next(alloc, cursor, parts.strings(), prev)
}

fn read_next(
    alloc: Global,
    cursor: &mut Cursor<'_>,
    strings: &[u8],
    prev: &mut PrevPos,
) -> Result<Pos, ReadFault>
    ensures found { IfOk result (λ pos. Found strings.now prev.old prev.new cursor.old cursor.new pos) }
    ensures exact { ReadsPosition result prev.old prev.new cursor.old cursor.new
        (position_at strings.now prev.old.place cursor.old) }
{
    let mut ahead = cursor.fork();
    let step = read_step(strings, prev, &mut ahead)?;
    let pos = move_on(alloc, prev, &step)?;
    *cursor = ahead;
    Ok(pos)
}

/// Makes the place to which a step leads the one before the next, and answers its position.
fn move_on(alloc: Global, prev: &mut PrevPos, step: &Step<'_>) -> Result<Pos, AllocError>
    ensures position { IfOk result (λ pos. pos ≡ pos_of (now_of prev.old.place step.now).place) }
    ensures moved { OnOk result (prev.new ≡ moved_on prev.old (now_of prev.old.place step.now)) }
    ensures refused { OnErr result (prev.new ≡ prev.old) }
{
    match step.file {
        None => {
            let pos = pos_at(prev.file.clone()?, step.line, step.column);
            prev.line = step.line;
            prev.column = step.column;
            Ok(pos)
        }
        Some((offset, text)) => {
            let file = Bytes::from_slice(alloc, text)?;
            let pos = pos_at(file.clone()?, step.line, step.column);
            prev.file = file;
            prev.line = step.line;
            prev.column = step.column;
            prev.name = Some(offset);
            Ok(pos)
        }
    }
}

fn pos_at(file: Bytes, line: u32, column: u32) -> Pos
    ensures { result ≡ pos_of (place_at file line column) }
{
    if file.as_slice().is_empty() && line == 0 && column == 0 {
        Pos::Nowhere
    } else {
        Pos::At { file, line, column }
    }
}

/// A signed number, and where it moves a line or column by its half.
#[tactic(auto, unfolding(crate::specs::Position::moved_at))]
fn read_moved(cursor: &mut Cursor<'_>, before: u32) -> Result<(i64, u32), ByteFault>
    ensures found { IfOk result (λ x. Begins Varint cursor.old.left x.0 cursor.new.left
        × (moved before (half x.0) ≡ Some x.1)) }
    ensures exact { GivesBy Some (λ x. (x, cursor.new)) result (moved_at before cursor.old) }
{
    let at = cursor.place() as u64;
    let number = cursor.varint()?;
    let Some(now) = moved(before, number) else {
        return Err(ByteFault::Range {
            at,
            value: uvarint_of(number),
        });
    };
    Ok((number, now))
}

/// The name of a file, which isn't the one before it, and its offset.
#[tactic(auto, unfolding(crate::specs::Position::file_at))]
fn read_file<'s>(
    strings: &'s [u8],
    before: &[u8],
    cursor: &mut Cursor<'_>,
) -> Result<(u64, &'s [u8]), ByteFault>
    ensures found { IfOk result (λ x. BeginsWith cursor.old.left x.0 cursor.new.left × Text strings.now x.0 x.1.now
        × (x.1.now ≢ before.now)) }
    ensures exact { GivesBy Some (λ x. ((x.0, x.1.now), cursor.new)) result
        (file_at strings.now before.now cursor.old) }
{
    let at = cursor.place() as u64;
    let offset = cursor.uvarint()?;
    let Some(file) = text_at(strings, offset) else {
        return Err(ByteFault::Range { at, value: offset });
    };
    if file == before {
        return Err(ByteFault::Number { at });
    }
    Ok((offset, file))
}

/// The number of another line, or of the same one in another file, so it isn't 0; and where it moves the line.
#[tactic(auto, unfolding(crate::specs::Position::line_at))]
fn read_line(cursor: &mut Cursor<'_>, before: u32) -> Result<(i64, u32), ByteFault>
    ensures found { IfOk result (λ x. Begins Varint cursor.old.left x.0 cursor.new.left
        × (moved before (half x.0) ≡ Some x.1) × (x.0 ≢ pos 0)) }
    ensures exact { GivesBy Some (λ x. (x, cursor.new)) result (line_at before cursor.old) }
{
    let at = cursor.place() as u64;
    let line = read_moved(cursor, before)?;
    if line.0 == 0 {
        return Err(ByteFault::Number { at });
    }
    Ok(line)
}

/// What a position changes: the column, and maybe the line and the file, with the offset of its name.
#[derive(Clone, Copy)]
struct Step<'s> {
    file: Option<(u64, &'s [u8])>,
    line: u32,
    column: u32,
}

/// What the next position changes.
#[tactic(auto, unfolding(crate::specs::Position::position_at))]
fn read_step<'s>(
    strings: &'s [u8],
    prev: &PrevPos,
    cursor: &mut Cursor<'_>,
) -> Result<Step<'s>, ByteFault>
    ensures found { IfOk result (λ step.
        Begins (Position strings.now prev.now.place) cursor.old.left (now_of prev.now.place step) cursor.new.left) }
    ensures exact { GivesBy Some (λ step. (now_of prev.now.place step, cursor.new)) result
        (position_at strings.now prev.now.place cursor.old) }
{
    let (number, column) = read_moved(cursor, prev.column)?;
    if !is_odd(number) {
        return Ok(Step {
            file: None,
            line: prev.line,
            column,
        });
    }
    let (number, line) = read_line(cursor, prev.line)?;
    if !is_odd(number) {
        return Ok(Step {
            file: None,
            line,
            column,
        });
    }
    let file = read_file(strings, prev.file.as_slice(), cursor)?;
    Ok(Step {
        file: Some(file),
        line,
        column,
    })
}

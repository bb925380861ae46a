//! The bytes of a block, read one thing at a time.

ghost use Rattle.std.specs.Prelude.{◌≡◌, ◌≤◌};
ghost use Rattle.file_parts.specs.FileParts.{IsOfFile};
ghost use Rattle.decl_spelling.specs.Sections.{HoldsBytes, window};
ghost use Rattle.decl_spelling.specs.Spelled.{without_pos};
ghost use Rattle.decl_spelling.specs.Reading.{start, number_at, truth_at, text_at, path_at, pos_at, type_at};
ghost use Rattle.block_reader.specs.Calls.{ReadsBlock, ahead_of, sections_of};
ghost use Rattle.block_reader.specs.Spelled.{text_spelled, path_spelled, pos_spelled};

use crate::spelled::{SpelledPath, SpelledPos, SpelledText};
use decl_spelling::{Demand, Mention};
use file_parts::Parts;
use go_values::Bytes;
use position_codec::{PrevPos, read_full};
use std::alloc::Global;
use wire_bytes::{ByteFault, Cursor, ReadFault, text_at};

/// A block that is being read: what is left of it, the position before its next one, and the types that it has named so
/// far.
#[derive(Drop)]
pub struct Block<'a> {
    pub cursor: Cursor<'a>,
    pub before: PrevPos,
    pub mentions: Vec<Mention>,
}

impl<'a> Block<'a> {
    /// The bytes of the data section from an offset up to another, as a block that begins there. It takes no memory.
    pub fn new(alloc: Global, parts: &Parts<'a>, from: u64, to: u64) -> Block<'a>
        requires sections { IsOfFile parts.now }
        requires order { from ≤ to }
        requires inside { to ≤ parts.now.body_len }
        ensures ahead { ahead_of result ≡ start (window (sections_of parts.now) from to) }
        ensures bytes { HoldsBytes (sections_of parts.now) }
    {
        Block {
            cursor: parts.cursor(from, to),
            before: PrevPos::start(alloc),
            mentions: Vec::new(alloc),
        }
    }
}

/// The next number.
pub fn read_number(block: &mut Block<'_>) -> Result<u64, ReadFault>
    ensures { ReadsBlock (λ n. n) number_at block.old result block.new }
{
    Ok(block.cursor.uvarint()?)
}

/// The next flag.
pub fn read_truth(block: &mut Block<'_>) -> Result<bool, ReadFault>
    ensures { ReadsBlock (λ b. b) truth_at block.old result block.new }
{
    Ok(block.cursor.flag()?)
}

/// The text of the string section at the offset that comes next, copied.
#[tactic(auto, unfolding(decl_spelling::specs::Reading::text_at))]
pub fn read_text(
    alloc: Global,
    parts: &Parts<'_>,
    block: &mut Block<'_>,
) -> Result<SpelledText, ReadFault>
    requires { IsOfFile parts.now }
    ensures { ReadsBlock text_spelled (text_at (sections_of parts.now)) block.old result block.new }
{
    let at = block.cursor.place() as u64;
    let offset = read_number(block)?;
    match text_at(parts.strings(), offset) {
        Some(text) => Ok(SpelledText {
            offset,
            text: Bytes::from_slice(alloc, text)?,
        }),
        None => Err(ReadFault::Bytes(ByteFault::Range { at, value: offset })),
    }
}

/// The path of a package, by the offset of its text that comes next, copied.
#[tactic(auto, unfolding(decl_spelling::specs::Reading::path_at))]
pub fn read_path(
    alloc: Global,
    parts: &Parts<'_>,
    block: &mut Block<'_>,
) -> Result<SpelledPath, ReadFault>
    requires { IsOfFile parts.now }
    ensures { ReadsBlock path_spelled (path_at (sections_of parts.now)) block.old result block.new }
{
    let at = block.cursor.place() as u64;
    let offset = read_number(block)?;
    match parts.path_at(offset) {
        Some(path) => Ok(SpelledPath {
            offset,
            path: Bytes::from_slice(alloc, path)?,
        }),
        None => Err(ReadFault::Bytes(ByteFault::Range { at, value: offset })),
    }
}

/// The next position.
pub fn read_pos(
    alloc: Global,
    parts: &Parts<'_>,
    block: &mut Block<'_>,
) -> Result<SpelledPos, ReadFault>
    requires { IsOfFile parts.now }
    ensures { ReadsBlock pos_spelled (pos_at (sections_of parts.now)) block.old result block.new }
{
    let pos = read_full(alloc, &mut block.cursor, parts, &mut block.before)?;
    let file = block.before.file_off();
    Ok(SpelledPos { pos, file })
}

/// The number of a type, which is noted with what is asked of it.
#[tactic(auto, unfolding(decl_spelling::specs::Reading::type_at))]
pub fn read_type(block: &mut Block<'_>, asked: Demand) -> Result<u64, ReadFault>
    ensures { ReadsBlock without_pos (type_at asked) block.old result block.new }
{
    let at = block.cursor.place() as u64;
    let value = read_number(block)?;
    block.mentions.push(Mention { at, value, asked })?;
    Ok(value)
}

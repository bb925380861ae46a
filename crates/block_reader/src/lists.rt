//! Counted lists of a block. A count may be any number, so no memory is taken by it: each item takes at least a byte.

ghost use Rattle.std.specs.Prelude.{◌≡◌, ◌<◌, map};
ghost use Rattle.file_parts.specs.FileParts.{IsOfFile};
ghost use Rattle.decl_spelling.specs.Reading.{times, list_at, some_at};
ghost use Rattle.block_reader.specs.Calls.{ReadsBlock, sections_of};

use crate::block::{Block, read_number};
use file_parts::Parts;
use std::alloc::Global;
use wire_bytes::{ByteFault, ReadFault};

/// What stands in a counted list of a block.
pub trait Listed: Drop {
    ghost use Rattle.file_parts.specs.FileParts.{IsOfFile};
    ghost use Rattle.decl_spelling.specs.Sections.{Sections};
    ghost use Rattle.decl_spelling.specs.Reading.{Reader};
    ghost use Rattle.block_reader.specs.Calls.{ReadsBlock, sections_of};

    ghost Shape: { Type 0 };

    ghost shape: { Self → Shape };

    ghost reading: { Sections → Reader Shape };

    /// Reads the next one.
    fn read(alloc: Global, parts: &Parts<'_>, block: &mut Block<'_>) -> Result<Self, ReadFault>
        requires { IsOfFile parts.now }
        ensures { ReadsBlock shape (reading (sections_of parts.now)) block.old result block.new };
}

/// That many items.
pub fn read_times<T: Listed>(
    alloc: Global,
    parts: &Parts<'_>,
    count: u64,
    block: &mut Block<'_>,
) -> Result<Vec<T>, ReadFault>
    requires { IsOfFile parts.now }
    ensures { ReadsBlock (λ v. map T.shape v.items) (times (T.reading (sections_of parts.now)) count) block.old result
        block.new }
{
    let mut items = Vec::new(alloc);
    for _ in 0..count {
        let item = T::read(alloc, parts, block)?;
        items.push(item)?;
    }
    Ok(items)
}

/// A count, and that many items.
#[tactic(auto, unfolding(decl_spelling::specs::Reading::list_at))]
pub fn read_list<T: Listed>(
    alloc: Global,
    parts: &Parts<'_>,
    block: &mut Block<'_>,
) -> Result<Vec<T>, ReadFault>
    requires { IsOfFile parts.now }
    ensures { ReadsBlock (λ v. map T.shape v.items) (list_at (T.reading (sections_of parts.now))) block.old result
        block.new }
{
    let count = read_number(block)?;
    read_times(alloc, parts, count, block)
}

/// The same, where there is at least one item.
#[tactic(auto, unfolding(decl_spelling::specs::Reading::some_at))]
pub fn read_some<T: Listed>(
    alloc: Global,
    parts: &Parts<'_>,
    block: &mut Block<'_>,
) -> Result<Vec<T>, ReadFault>
    requires { IsOfFile parts.now }
    ensures { ReadsBlock (λ v. map T.shape v.items) (some_at (T.reading (sections_of parts.now))) block.old result
        block.new }
{
    let at = block.cursor.place() as u64;
    let count = read_number(block)?;
    if count == 0 {
        return Err(ReadFault::Bytes(ByteFault::Range { at, value: count }));
    }
    read_times(alloc, parts, count, block)
}

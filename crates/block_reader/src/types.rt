//! Lists of types, as numbers.

ghost use Rattle.std.specs.Prelude.{◌≡◌, ◌<◌};
ghost use Rattle.decl_spelling.specs.Reading.{times, some_at, type_at};
ghost use Rattle.block_reader.specs.Calls.{ReadsBlock};
ghost use Rattle.block_reader.specs.Parts.{types_spelled};

use crate::block::{Block, read_number, read_type};
use decl_spelling::Demand;
use std::alloc::Global;
use wire_bytes::{ByteFault, ReadFault};

/// At least one type, after their count. The same is asked of each.
#[tactic(auto, unfolding(decl_spelling::specs::Reading::some_at))]
pub fn read_types(
    alloc: Global,
    asked: Demand,
    block: &mut Block<'_>,
) -> Result<Vec<u64>, ReadFault>
    ensures { ReadsBlock (λ v. types_spelled v.items) (some_at (type_at asked)) block.old result block.new }
{
    let at = block.cursor.place() as u64;
    let count = read_number(block)?;
    if count == 0 {
        return Err(ReadFault::Bytes(ByteFault::Range { at, value: count }));
    }
    read_type_times(alloc, asked, count, block)
}

fn read_type_times(
    alloc: Global,
    asked: Demand,
    count: u64,
    block: &mut Block<'_>,
) -> Result<Vec<u64>, ReadFault>
    ensures { ReadsBlock (λ v. types_spelled v.items) (times (type_at asked) count) block.old result block.new }
{
    let mut types = Vec::new(alloc);
    for _ in 0..count {
        let ty = read_type(block, asked)?;
        types.push(ty)?;
    }
    Ok(types)
}

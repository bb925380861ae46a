//! Positions as they are written.

ghost use Rattle.std.specs.Prelude.{◌≡◌, IfOk};
ghost use Rattle.position_codec.specs.Place.{place_at, pos_of};
ghost use Rattle.written_types.specs.Written.{position_written};

use go_values::{Bytes, Pos};
use std::alloc::AllocError;

/// The position that is read back: none for the empty file, line 0 and column 0.
pub(crate) fn position_written(pos: &Pos) -> Result<Pos, AllocError>
    ensures { IfOk result (λ made. made ≡ position_written pos.now) }
{
    match pos {
        Pos::Nowhere => Ok(Pos::Nowhere),
        Pos::At { file, line, column } => position_at(file, *line, *column),
    }
}

fn position_at(file: &Bytes, line: u32, column: u32) -> Result<Pos, AllocError>
    ensures { IfOk result (λ made. made ≡ pos_of (place_at file.now line column)) }
{
    if file.as_slice().is_empty() && line == 0 && column == 0 {
        return Ok(Pos::Nowhere);
    }
    Ok(Pos::At {
        file: file.clone()?,
        line,
        column,
    })
}

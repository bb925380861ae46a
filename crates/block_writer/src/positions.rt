//! Positions, each spelled by what has changed since the one before it in the block.

ghost use Rattle.std.specs.Prelude.{◌≡◌, ◌++◌, OnOk};
ghost use Rattle.position_codec.specs.Place.{no_place, place_of, delta};
ghost use Rattle.file_envelope.specs.FileBytes.{text_number};
ghost use Rattle.file_layout.specs.Bytes.{signed_bytes, place_bytes};
ghost use Rattle.file_writer.specs.Puts.{Puts};
ghost use Rattle.block_writer.specs.Putting.{place_over, place_texts};

use crate::numbers::{put_signed, put_text};
use go_values::Pos;
use std::alloc::AllocError;
use wire_bytes::{Strings, Writer};

/// A place in a source file; the empty file, line 0 and column 0 stand for none.
#[derive(Clone, Copy)]
pub(crate) struct Place<'a> {
    file: &'a [u8],
    line: u32,
    column: u32,
}

/// The place before the first position of a block.
pub(crate) fn no_place<'a>() -> Place<'a>
    ensures { place_over result ≡ no_place }
{
    Place {
        file: &[],
        line: 0,
        column: 0,
    }
}

pub(crate) fn place_of(pos: &Pos) -> Place<'_>
    ensures { place_over result ≡ place_of pos.now }
{
    match pos {
        Pos::Nowhere => no_place(),
        Pos::At { file, line, column } => Place {
            file: file.as_slice(),
            line: *line,
            column: *column,
        },
    }
}

/// Adds a place: the column, the line where it is another one, and so the file by its offset.
pub(crate) fn put_place(
    w: &mut Writer,
    strings: &mut Strings,
    before: Place<'_>,
    now: Place<'_>,
) -> Result<(), AllocError>
    ensures { OnOk result (Puts (place_texts (place_over before.entry) (place_over now.entry))
        (λ texts. place_bytes (text_number texts) (place_over before.entry) (place_over now.entry))
        strings.old strings.new w.old w.new) }
{
    if before.file != now.file {
        put_delta(w, before.column, now.column, true)?;
        put_delta(w, before.line, now.line, true)?;
        return put_text(w, strings, now.file);
    }
    if before.line != now.line {
        put_delta(w, before.column, now.column, true)?;
        return put_delta(w, before.line, now.line, false);
    }
    put_delta(w, before.column, now.column, false)
}

/// Adds twice the difference, and one more where something follows.
fn put_delta(w: &mut Writer, from: u32, to: u32, more: bool) -> Result<(), AllocError>
    ensures { OnOk result (w.new ≡ w.old ++ signed_bytes (delta from to more)) }
{
    put_signed(w, delta(from, to, more))
}

fn delta(from: u32, to: u32, more: bool) -> i64
    ensures { result ≡ delta from to more }
{
    let twice = 2 * (i64::from(to) - i64::from(from));
    if more { twice + 1 } else { twice }
}

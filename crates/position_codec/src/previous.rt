//! The position before the next one.

ghost use Rattle.std.specs.Prelude.{◌≡◌, None};
ghost use Rattle.position_codec.specs.Place.{no_place};

use go_values::Bytes;
use std::alloc::Global;
use std::marker::Model;

/// The position before the next one of a block, against which the next one is spelled. Contracts see its place, and the
/// offset under which the last file was named.
#[derive(Drop)]
pub struct PrevPos {
    pub(crate) file: Bytes,
    pub(crate) line: u32,
    pub(crate) column: u32,
    pub(crate) name: Option<u64>,
}

impl Model for PrevPos {
    ghost use Rattle.std.specs.Prelude.{◌<◌, ◌^◌};
    ghost use Rattle.position_codec.specs.Place.{Named};

    ghost Value = { Named };

    ghost view = { λ p. record { place = record { file = p.file; line = p.line; column = p.column }; name = p.name } };

    ghost invariant = { λ p. (p.line < 2 ^ 32) × (p.column < 2 ^ 32) };
}

impl PrevPos {
    /// The start of a block: no file, line 0 and column 0. It takes no memory.
    pub fn start(alloc: Global) -> PrevPos
        ensures { result ≡ record { place = no_place; name = None } }
    {
        PrevPos {
            file: Bytes::new(alloc),
            line: 0,
            column: 0,
            name: None,
        }
    }

    /// The stringOff of the last file that was read or written since the start. It takes no memory.
    pub fn file_off(&self) -> Option<u64>
        ensures { result ≡ self.now.name }
    {
        self.name
    }
}

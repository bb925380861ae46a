//! Writing numbers and bytes.

ghost use Rattle.std.specs.Prelude.{◌≡◌, [], ◌∷◌, ◌++◌, OnOk, OnErr, IsTrue};
ghost use Rattle.wire_bytes.specs.Begins.{Appends};
ghost use Rattle.wire_bytes.specs.Uvarint.{Uvarint};
ghost use Rattle.wire_bytes.specs.Varint.{Varint, Flag};
ghost use Rattle.wire_bytes.specs.Whole.{IsGreatestLength, Whole, in_range};

use crate::spelling::{spell_uvarint, uvarint_of};
use crate::whole::spell_whole;
use std::alloc::{AllocError, Global};
use std::marker::Model;

/// A growing list of bytes, to which numbers are added in their spellings. Contracts see the list. What is refused for
/// want of memory adds nothing.
#[derive(Drop)]
pub struct Writer {
    bytes: Vec<u8>,
}

impl Model for Writer {
    ghost use Rattle.std.specs.Prelude.{List, ℕ};

    ghost Value = { List ℕ };

    ghost view = { λ w. w.bytes.items };
}

impl Writer {
    /// No bytes. Later calls take their memory from `alloc`.
    pub fn new(alloc: Global) -> Writer
        ensures { result ≡ [] }
    {
        Writer {
            bytes: Vec::new(alloc),
        }
    }

    /// The bytes written so far.
    pub fn bytes(&self) -> &[u8]
        ensures { result.now ≡ self.now }
    {
        self.bytes.as_slice()
    }

    /// Adds a byte.
    pub fn put_byte(&mut self, byte: u8) -> Result<(), AllocError>
        ensures written { OnOk result (self.new ≡ self.old ++ byte ∷ []) }
        ensures refused { OnErr result (self.new ≡ self.old) }
    {
        self.bytes.push(byte)?;
        Ok(())
    }

    /// Adds a number.
    pub fn put_uvarint(&mut self, number: u64) -> Result<(), AllocError>
        ensures written { OnOk result (Appends Uvarint self.old number self.new) }
        ensures refused { OnErr result (self.new ≡ self.old) }
    {
        let mut room = [0; 10];
        let len = spell_uvarint(number, &mut room);
        self.bytes.extend_from_slice(&room[..len])
    }

    /// Adds a signed number.
    pub fn put_varint(&mut self, x: i64) -> Result<(), AllocError>
        ensures written { OnOk result (Appends Varint self.old x self.new) }
        ensures refused { OnErr result (self.new ≡ self.old) }
    {
        self.put_uvarint(uvarint_of(x))
    }

    /// Adds a flag.
    pub fn put_flag(&mut self, flag: bool) -> Result<(), AllocError>
        ensures written { OnOk result (Appends Flag self.old flag self.new) }
        ensures refused { OnErr result (self.new ≡ self.old) }
    {
        self.put_uvarint(u64::from(flag))
    }

    /// Adds a whole constant of a type, which is signed or not, and whose values have at most `max` bytes without their
    /// sign: 1, 2, 4 or 8, and 64 for an untyped constant, which is signed.
    pub fn put_whole(&mut self, value: i128, signed: bool, max: u8) -> Result<(), AllocError>
        requires length { IsGreatestLength max }
        requires untyped { max ≡ 64 → IsTrue signed }
        requires of_type { IsTrue (in_range signed max value) }
        ensures written { OnOk result (Appends (Whole signed max) self.old value self.new) }
        ensures refused { OnErr result (self.new ≡ self.old) }
    {
        let mut room = [0; 17];
        let start = spell_whole(value, signed, max, &mut room);
        self.bytes.extend_from_slice(&room[start..])
    }
}

//! Signed numbers and flags.

ghost use Rattle.std.specs.Prelude.{◌≡◌, IfOk, IfErr};
ghost use Rattle.wire_bytes.specs.Begins.{Begins};
ghost use Rattle.wire_bytes.specs.Reading.{Reads};
ghost use Rattle.wire_bytes.specs.Uvarint.{IsUvarintFault};
ghost use Rattle.wire_bytes.specs.Varint.{Varint, Flag, IsFlagFault, signed_of, varint_at, flag_at};

use crate::cursor::Cursor;
use crate::fault::ByteFault;

impl<'a> Cursor<'a> {
    /// The next signed number: x from 0 on is spelled as the number 2x, and x below 0 as -2x - 1.
    pub fn varint(&mut self) -> Result<i64, ByteFault>
        ensures found { IfOk result (λ x. Begins Varint self.old.left x self.new.left) }
        ensures fault { IfErr result (IsUvarintFault self.old) }
        ensures exact { Reads (λ x. x) result self.old self.new (varint_at self.old) }
    {
        let number = self.uvarint()?;
        Ok(from_number(number))
    }

    /// The next flag, the number 0 or 1. A greater number is `Tag`, at its first byte.
    pub fn flag(&mut self) -> Result<bool, ByteFault>
        ensures found { IfOk result (λ flag. Begins Flag self.old.left flag self.new.left) }
        ensures fault { IfErr result (IsFlagFault self.old) }
        ensures exact { Reads (λ flag. flag) result self.old self.new (flag_at self.old) }
    {
        let start = self.rest;
        let at = self.place() as u64;
        match self.uvarint()? {
            0 => Ok(false),
            1 => Ok(true),
            value => {
                self.rest = start;
                Err(ByteFault::Tag { at, value })
            }
        }
    }
}

fn from_number(number: u64) -> i64
    ensures { result ≡ signed_of number }
{
    let half = (number / 2) as i64;
    if number % 2 == 0 { half } else { -half - 1 }
}

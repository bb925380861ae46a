//! Whole constants.

ghost use Rattle.std.specs.Prelude.{◌≡◌, List, ℕ, ℤ, IfOk, IfErr, IsErrOf, IsTrue};
ghost use Rattle.wire_bytes.specs.Begins.{Begins};
ghost use Rattle.wire_bytes.specs.Reading.{Reads};
ghost use Rattle.wire_bytes.specs.Whole.{IsGreatestLength, Whole, whole_at};
ghost use Rattle.wire_bytes.specs.WholeFault.{IsWholeFault};

use crate::cursor::Cursor;
use crate::fault::ByteFault;
use crate::whole::{judge, length_behind, small_limit, value_of};

impl<'a> Cursor<'a> {
    /// The next whole constant of a type, which is signed or not, and whose values have at most `max` bytes without
    /// their sign: 1, 2, 4 or 8, and 64 for an untyped constant, which is signed.
    ///
    /// A small value is one byte. Else a prefix tells the sign and how many bytes of the value's size follow, the
    /// highest first. Where fewer are there, the fault is `Ended`, whatever they are. Then all faults stand at the
    /// prefix: `Number` for a size that begins with 0 or for a value that has a byte of its own, and for a value that
    /// isn't one of the type `Range` with the prefix as its value, or `Wide` without a type.
    pub fn whole(&mut self, signed: bool, max: u8) -> Result<i128, ByteFault>
        requires length { IsGreatestLength max }
        requires untyped { max ≡ 64 → IsTrue signed }
        ensures found { IfOk result (λ v. Begins (Whole signed max) self.old.left v self.new.left) }
        ensures none { IfErr result (λ f. (v : ℤ) (rest : List ℕ) → Begins (Whole signed max) self.old.left v rest
            → ⊥) }
        ensures fault { IfErr result (IsWholeFault signed max self.old) }
        ensures only { (f : ByteFault) → IsWholeFault signed max self.old f → IsErrOf result f }
        ensures exact { Reads (λ v. v) result self.old self.new (whole_at signed max self.old) }
    {
        self.next_whole(signed, max)
    }

    fn next_whole(&mut self, signed: bool, max: u8) -> Result<i128, ByteFault>
        requires { IsGreatestLength max }
        ensures found { IfOk result (λ v. Begins (Whole signed max) self.old.left v self.new.left) }
        ensures exact { Reads (λ v. v) result self.old self.new (whole_at signed max self.old) }
    {
        let at = self.place() as u64;
        let mut ahead = self.fork();
        let first = ahead.byte()?;
        if u16::from(first) < small_limit(signed, max) {
            self.rest = ahead.rest;
            return Ok(value_of(signed, first));
        }
        let size = ahead.take(u64::from(length_behind(signed, first)))?;
        let value = judge(signed, max, at, first, size)?;
        self.rest = ahead.rest;
        Ok(value)
    }
}

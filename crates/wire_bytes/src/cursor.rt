//! A place in a part of a file, from which numbers and bytes are read.

ghost use Rattle.std.specs.Prelude.{◌≡◌, ◌-◌, ◌≤◌, length, take, drop, IfOk, IfErr, OnOk, ◌<◌, ◌+◌, IsTrue, ◌↔◌, []};
ghost use Rattle.wire_bytes.specs.Reading.{Reads, place, byte_at, bytes_at};
ghost use Rattle.wire_bytes.specs.Uvarint.{BeginsWith, IsUvarintFault, uvarint_at};

mod fork;
mod signed;
mod whole;

use crate::fault::ByteFault;
use crate::number::{Unspelled, leading_uvarint};
use std::marker::Model;

/// What is left of a part of a file. Each read takes from its front, and a fault leaves it as it was. Contracts see the
/// place at which the part ends, and the bytes that are left. No call takes memory.
#[derive(Drop)]
pub struct Cursor<'a> {
    rest: &'a [u8],
    end: usize,
}

impl<'a> Model for Cursor<'a> {
    ghost use Rattle.wire_bytes.specs.Reading.{Spot};
    ghost use Rattle.std.specs.Prelude.{◌≤◌, length};

    ghost Value = { Spot };

    ghost view = { λ c. record { end = c.end; left = c.rest.now } };

    ghost invariant = { λ c. length c.rest.now ≤ c.end };
}

impl<'a> Cursor<'a> {
    /// The part of the file's bytes from `at` to `end`.
    pub fn new(bytes: &'a [u8], at: usize, end: usize) -> Cursor<'a>
        requires order { at ≤ end }
        requires inside { end ≤ length bytes.now }
        ensures end { result.end ≡ end }
        ensures left { result.left ≡ take (end - at) (drop at bytes.now) }
    {
        Cursor {
            rest: &bytes[at..end],
            end,
        }
    }

    /// Where the next byte stands in the file.
    pub fn place(&self) -> usize
        ensures place { result ≡ place self.now }
        ensures before_the_end { result + length self.now.left ≡ self.now.end }
    {
        self.end - self.rest.len()
    }

    /// Whether nothing is left.
    pub fn is_at_end(&self) -> bool
        ensures { IsTrue result ↔ (self.now.left ≡ []) }
    {
        self.rest.is_empty()
    }

    /// The next byte.
    pub fn byte(&mut self) -> Result<u8, ByteFault>
        ensures { Reads (λ b. b) result self.old self.new (byte_at self.old) }
    {
        match self.rest {
            [] => Err(self.ended()),
            [byte, rest @ ..] => {
                self.rest = rest;
                Ok(*byte)
            }
        }
    }

    /// The next number, of 64 bits, in its shortest spelling: groups of seven bits, the low ones first, each byte but
    /// the last with its top bit set.
    pub fn uvarint(&mut self) -> Result<u64, ByteFault>
        ensures found { IfOk result (λ v. BeginsWith self.old.left v self.new.left) }
        ensures progress { OnOk result (length self.new.left < length self.old.left) }
        ensures fault { IfErr result (IsUvarintFault self.old) }
        ensures exact { Reads (λ v. v) result self.old self.new (uvarint_at self.old) }
    {
        match leading_uvarint(self.rest) {
            Ok((value, rest)) => {
                self.rest = rest;
                Ok(value)
            }
            Err(Unspelled::Cut) => Err(self.ended()),
            Err(Unspelled::Wrong) => Err(ByteFault::Number {
                at: self.place() as u64,
            }),
        }
    }

    /// The next `n` bytes, lent.
    pub fn take(&mut self, n: u64) -> Result<&'a [u8], ByteFault>
        ensures { Reads (λ b. b.now) result self.old self.new (bytes_at n self.old) }
    {
        if n > self.rest.len() as u64 {
            return Err(self.ended());
        }
        let (taken, rest) = self.rest.split_at(n as usize);
        self.rest = rest;
        Ok(taken)
    }

    fn ended(&self) -> ByteFault
        ensures { result ≡ ByteFault.Ended self.now.end }
    {
        ByteFault::Ended {
            at: self.end as u64,
        }
    }
}

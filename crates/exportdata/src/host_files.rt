ghost use Rattle.std.specs.Prelude.{◌≡◌, ◌++◌, ℕ, List, None, IsTrue};
ghost use Rattle.std.specs.Io.KnownBytes.{Appends};
ghost use Rattle.exportdata.specs.Growth.{Grows};

use outside::{FetchFault, Files, StoreFault};
use std::io::{ErrorKind, Read, Write};
use std::{fs, rt};

// How many bytes are read at once.
const BLOCK: usize = 65_536;

/// The files of this machine. A contract sees their faults alone.
#[derive(Drop)]
pub struct HostFiles<'a, R> {
    rt: &'a R,
    faults: u64,
}

impl<'a, R: rt::Files> HostFiles<'a, R> {
    pub fn new(rt: &'a R) -> HostFiles<'a, R> {
        HostFiles { rt, faults: 0 }
    }
}

impl<'a, R: rt::Files> Files for HostFiles<'a, R> {
    ghost held = { λ _. None };

    ghost faults = { λ files. files.faults };

    fn fetch(&mut self, name: &str, limit: usize, into: &mut Vec<u8>) -> Result<(), FetchFault> {
        let start = into.len();
        match read_file(self.rt, name, limit, into) {
            Ok(()) => Ok(()),
            Err(fault) => {
                into.truncate(start);
                if fault == FetchFault::Failed {
                    self.faults = self.faults.saturating_add(1);
                }
                Err(fault)
            }
        }
    }

    fn store(&mut self, name: &str, bytes: &[u8]) -> Result<(), StoreFault> {
        let written = match fs::create(self.rt, name) {
            Ok(mut file) => write_all(&mut file, bytes),
            Err(_) => false,
        };
        if written {
            return Ok(());
        }
        self.faults = self.faults.saturating_add(1);
        Err(StoreFault::Failed)
    }
}

// Adds the bytes of a file. It reads no more than a block past the limit.
fn read_file<R: rt::Files>(
    rt: &R,
    name: &str,
    limit: usize,
    into: &mut Vec<u8>,
) -> Result<(), FetchFault>
    ensures { Grows limit into.old.items into.new.items }
{
    let mut file = match fs::open(rt, name) {
        Ok(file) => file,
        Err(error) if error.kind() == ErrorKind::NotFound => return Err(FetchFault::Missing),
        Err(_) => return Err(FetchFault::Failed),
    };
    let mut block = [0u8; BLOCK];
    let mut left = limit;
    for _ in 0..u64::MAX {
        match file.read(&mut block) {
            Ok(0) => return Ok(()),
            Ok(count) if count > left => return Err(FetchFault::TooLong),
            Ok(count) => {
                if into.extend_from_slice(&block[..count]).is_err() {
                    return Err(FetchFault::OutOfMemory);
                }
                left -= count;
            }
            Err(error) if error.kind() == ErrorKind::Interrupted => {}
            Err(_) => return Err(FetchFault::Failed),
        }
    }
    Err(FetchFault::Failed)
}

/// Writes all bytes, and says whether it did. Else the first of them were written, or none.
pub fn write_all<W: Write>(to: &mut W, bytes: &[u8]) -> bool
    ensures all { IsTrue result → Appends (W.contents to.old) (W.contents to.new) bytes.now }
    ensures first { (done rest : List ℕ) × (bytes.now ≡ done ++ rest)
        × Appends (W.contents to.old) (W.contents to.new) done }
{
    let mut rest = bytes;
    for _ in 0..u64::MAX {
        if rest.is_empty() {
            return to.flush().is_ok();
        }
        match to.write(rest) {
            Ok(0) => return false,
            Ok(count) => rest = &rest[count..],
            Err(error) if error.kind() == ErrorKind::Interrupted => {}
            Err(_) => return false,
        }
    }
    false
}

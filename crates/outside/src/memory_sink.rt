ghost use Rattle.std.specs.Prelude.{is_ok, ◌↔◌, max, ◌≡◌, ◌≤◌, ◌<◌, ◌+◌, ◌-◌, ◌++◌, ℕ, [], List, length, vec_len};
ghost use Rattle.std.specs.Prelude.{Option, None, Some, IsNone, IsSome, IfOk, OnOk, OnErr, IsTrue};
ghost use Rattle.std.specs.Vec.{vec_capacity};
ghost use Rattle.outside.specs.Counts.{Rose};
ghost use Rattle.outside.specs.MemorySink.{Tray, planned, goes_whole, added, after_put};

use crate::sinks::{Sink, SinkFault};
use std::alloc::{AllocError, Global};
use std::marker::Model;

/// A sink in memory, with puts that fail on purpose. A put costs its piece and a pass over the failing puts.
#[derive(Drop)]
pub struct MemorySink {
    bytes: Vec<u8>,
    room: usize,
    failing: Vec<(u64, u64)>,
    puts: u64,
    faults: u64,
}

impl Model for MemorySink {
    ghost Value = { Tray };

    ghost view = { λ s. record {
      written = s.bytes.items;
      room = s.room;
      failing = s.failing.items;
      puts = s.puts;
      faults = s.faults;
    } };

    ghost invariant = { λ s. vec_len s.bytes + s.room ≤ vec_capacity s.bytes };
}

impl MemorySink {
    /// A sink with nothing written and no room. Puts are numbered from 0. A pair (k, n) makes put k fail after the
    /// first n bytes of its piece, or after the whole piece where it is shorter; the first pair of a number counts.
    pub fn new(alloc: Global, failing: Vec<(u64, u64)>) -> Result<MemorySink, AllocError>
        ensures { IfOk result (λ tray. tray ≡ record {
          written = [];
          room = 0;
          failing = failing.items;
          puts = 0;
          faults = 0;
        }) }
    {
        Ok(MemorySink {
            bytes: Vec::new(alloc),
            room: 0,
            failing,
            puts: 0,
            faults: 0,
        })
    }

    /// Makes room for n more bytes, where less is left.
    pub fn reserve(&mut self, n: u64) -> Result<(), AllocError>
        ensures reserved { OnOk result (self.new ≡ record self.old { room = max self.old.room n }) }
        ensures refused { OnErr result (self.new ≡ self.old) }
    {
        let wanted = n as usize;
        if wanted > self.room {
            self.bytes.reserve(wanted)?;
            self.room = wanted;
        }
        Ok(())
    }

    /// What was written.
    pub fn written(&self) -> &[u8]
        ensures { result.now ≡ self.now.written }
    {
        self.bytes.as_slice()
    }

    // How many bytes the next put still writes before it fails, where it is one that fails.
    fn planned(&self) -> Option<u64>
        ensures { result ≡ planned self.now }
    {
        self.failing
            .iter()
            .find(|pair| pair.0 == self.puts)
            .map(|pair| pair.1)
    }

    // Adds these bytes, for which there is room.
    fn add(&mut self, bytes: &[u8])
        requires { length bytes.now ≤ self.old.room }
        ensures { self.new ≡ added self.old bytes.now }
    {
        let Ok(()) = self.bytes.extend_from_slice(bytes) else {
            unreachable!();
        };
        self.room -= bytes.len();
    }
}

impl Sink for MemorySink {
    ghost state = { λ tray. record { written = Some tray.written; faults = tray.faults } };

    fn put(&mut self, piece: &[u8]) -> Result<(), SinkFault>
        ensures planned { IsTrue (is_ok result) ↔ IsTrue (goes_whole self.old piece.now) }
        ensures exact { self.new ≡ after_put self.old piece.now }
        ensures failed { OnErr result (Rose self.old.faults self.new.faults) }
        ensures counted { self.old.faults ≤ self.new.faults }
    {
        let planned = self.planned();
        let whole = planned.is_none() && piece.len() <= self.room;
        let most = planned.unwrap_or(piece.len() as u64) as usize;
        let count = most.min(piece.len()).min(self.room);
        self.add(&piece[..count]);
        self.puts = self.puts.saturating_add(1);
        if whole {
            return Ok(());
        }
        self.faults = self.faults.saturating_add(1);
        Err(SinkFault::Failed)
    }
}

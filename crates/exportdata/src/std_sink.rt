ghost use Rattle.std.specs.Prelude.{◌≡◌, ◌≤◌, ℕ, [], None, OnOk, OnErr};
ghost use Rattle.std.specs.Io.KnownBytes.{Appends, append_known};
ghost use Rattle.outside.specs.Sinks.{Wrote, WroteSome};
ghost use Rattle.exportdata.specs.Gathering.{untold};
ghost use Rattle.outside.specs.Counts.{Rose};

use crate::host_files::write_all;
use outside::{Sink, SinkFault};
use std::alloc::{AllocError, Global};
use std::io::Write;

// How many bytes are gathered before they are written.
const BLOCK: usize = 65_536;

/// An output of this process. It gathers pieces and writes them in blocks; what is left is written by `finish`. A
/// contract sees its faults alone.
#[derive(Drop)]
pub struct StdSink<W> {
    to: W,
    block: Vec<u8>,
    faults: u64,
}

impl<W: Write + Drop> StdSink<W> {
    pub fn new(alloc: Global, to: W) -> Result<StdSink<W>, AllocError> {
        let block = Vec::with_capacity(alloc, BLOCK)?;
        Ok(StdSink {
            to,
            block,
            faults: 0,
        })
    }

    /// Writes what was gathered.
    pub fn finish(&mut self) -> Result<(), SinkFault>
        ensures written { OnOk result (Appends (W.contents self.old.to) (W.contents self.new.to) self.old.block.items) }
        ensures empty { self.new.block.items ≡ [] }
        ensures sound { OnOk result (self.new.faults ≡ self.old.faults) }
        ensures failed { OnErr result (Rose self.old.faults self.new.faults) }
        ensures counted { self.old.faults ≤ self.new.faults }
    {
        let written = write_all(&mut self.to, self.block.as_slice());
        self.block.clear();
        if written {
            return Ok(());
        }
        self.faults = self.faults.saturating_add(1);
        Err(SinkFault::Failed)
    }
}

impl<W: Write + Drop> Sink for StdSink<W> {
    ghost state = { λ sink. untold sink.faults };

    // What was written and gathered grows by the piece.
    fn put(&mut self, piece: &[u8]) -> Result<(), SinkFault>
        ensures whole { OnOk result (Wrote (untold self.old.faults) (untold self.new.faults) piece.now) }
        ensures part { OnErr result (WroteSome (untold self.old.faults) (untold self.new.faults) piece.now) }
        ensures counted { self.old.faults ≤ self.new.faults }
        ensures gathered { OnOk result (Appends (append_known (W.contents self.old.to) self.old.block.items)
            (append_known (W.contents self.new.to) self.new.block.items) piece.now) }
    {
        if self.block.capacity() - self.block.len() < piece.len() {
            self.finish()?;
        }
        if piece.len() <= self.block.capacity() - self.block.len() {
            if self.block.extend_from_slice(piece).is_ok() {
                return Ok(());
            }
        } else if write_all(&mut self.to, piece) {
            return Ok(());
        }
        self.faults = self.faults.saturating_add(1);
        Err(SinkFault::Failed)
    }
}

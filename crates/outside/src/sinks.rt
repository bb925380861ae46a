ghost use Rattle.std.specs.Prelude.{◌≤◌, OnOk, OnErr};
ghost use Rattle.outside.specs.Sinks.{SinkState, Wrote, WroteSome};

use thiserror::Error;

/// Why a piece wasn't put.
#[derive(Debug, Drop, Error, PartialEq, Eq, Clone, Copy)]
pub enum SinkFault {
    #[error("the output can't be written")]
    Failed,
}

/// A place where bytes go. A contract sees what was written, where the object tells it, and a count of its faults.
pub trait Sink {
    ghost state: { Self → SinkState };

    /// Writes the piece. After a fault the first bytes of the piece were written, or none. It takes no memory.
    fn put(&mut self, piece: &[u8]) -> Result<(), SinkFault>
        ensures whole { OnOk result (Wrote (state self.old) (state self.new) piece.now) }
        ensures part { OnErr result (WroteSome (state self.old) (state self.new) piece.now) }
        ensures counted { (state self.old).faults ≤ (state self.new).faults };
}

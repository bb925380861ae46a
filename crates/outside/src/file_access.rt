ghost use Rattle.std.specs.Prelude.{◌≡◌, ◌≤◌, ℕ, Option, None, OnOk, OnErr, IsErrOf, IfSome};
ghost use Rattle.std.specs.FinMap.{get, insert};
ghost use Rattle.outside.specs.Counts.{Rose};
ghost use Rattle.outside.specs.Files.{Held, Appends, IsLonger, IfBothHeld, SameElsewhere};

use thiserror::Error;

/// Why a file wasn't fetched.
#[derive(Debug, Drop, Error, PartialEq, Eq, Clone, Copy)]
pub enum FetchFault {
    #[error("there is no such file")]
    Missing,
    #[error("the file is longer than the limit")]
    TooLong,
    #[error("the file can't be read")]
    Failed,
    #[error("out of memory")]
    OutOfMemory,
}

/// Why a file wasn't stored.
#[derive(Debug, Drop, Error, PartialEq, Eq, Clone, Copy)]
pub enum StoreFault {
    #[error("the file can't be written")]
    Failed,
    #[error("out of memory")]
    OutOfMemory,
}

/// Files by name. A contract sees the files that the object holds, where it tells them, and a count of its faults.
pub trait Files {
    ghost held: { Self → Option Held };

    ghost faults: { Self → ℕ };

    /// Adds the bytes of the named file to `into`, at most `limit` of them. A fault of the device comes before the
    /// others. After a refusal `into` is as it was.
    fn fetch(&mut self, name: &str, limit: usize, into: &mut Vec<u8>) -> Result<(), FetchFault>
        ensures appended { OnOk result (Appends (held self.old) name.now limit into.old.items into.new.items) }
        ensures missing { IsErrOf result FetchFault.Missing
            → IfSome (held self.old) (λ files. get files name.now ≡ None) }
        ensures too_long { IsErrOf result FetchFault.TooLong
            → IfSome (held self.old) (λ files. IsLonger (get files name.now) limit) }
        ensures failed { IsErrOf result FetchFault.Failed → Rose (faults self.old) (faults self.new) }
        ensures refused { OnErr result (into.new.items ≡ into.old.items) }
        ensures kept { held self.new ≡ held self.old }
        ensures counted { faults self.old ≤ faults self.new };

    /// Gives the named file these bytes, whether it was there or not. After `Failed` nothing is known of this file.
    fn store(&mut self, name: &str, bytes: &[u8]) -> Result<(), StoreFault>
        ensures stored { OnOk result (IfBothHeld (held self.old) (held self.new)
            (λ before after. after ≡ insert before name.now bytes.now)) }
        ensures failed { IsErrOf result StoreFault.Failed → Rose (faults self.old) (faults self.new) }
        ensures others { IsErrOf result StoreFault.Failed
            → IfBothHeld (held self.old) (held self.new) (SameElsewhere name.now) }
        ensures no_memory { IsErrOf result StoreFault.OutOfMemory → held self.new ≡ held self.old }
        ensures counted { faults self.old ≤ faults self.new };
}

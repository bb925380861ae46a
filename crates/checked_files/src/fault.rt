//! Why files aren't checked.

ghost use Rattle.std.specs.Prelude.{◌≡◌};
ghost use Rattle.checked_files.specs.declared.fault.CheckFault.TheVariants.{OutOfMemory};

use std::alloc::{AllocError, AllocFailed};

/// Why files aren't checked.
#[derive(Debug, Drop, Clone, Copy, PartialEq, Eq)]
pub enum CheckFault {
    /// The arena has no room for the types of the declarations that the files list.
    Nodes,
    OutOfMemory,
}

impl From<AllocError> for CheckFault {
    ghost from_gives = { λ _ e. e ≡ OutOfMemory };

    fn from(_error: AllocError) -> CheckFault {
        CheckFault::OutOfMemory
    }
}

impl<T: Drop> From<AllocFailed<T>> for CheckFault {
    ghost from_gives = { λ _ e. e ≡ OutOfMemory };

    fn from(_error: AllocFailed<T>) -> CheckFault {
        CheckFault::OutOfMemory
    }
}

//! Why an environment gives no answer.

use std::alloc::AllocError;

/// Why references aren't looked up.
#[derive(Debug, Drop, Clone, Copy, PartialEq, Eq)]
pub enum AskFault {
    /// The environment's table has no room left.
    TableFull,
    /// The arena has no room for the types of the declarations that were asked for.
    Nodes,
    OutOfMemory,
}

impl From<AllocError> for AskFault {
    ghost use Rattle.std.specs.Prelude.{◌≡◌};
    ghost use Rattle.dangling_references.specs.declared.fault.AskFault.TheVariants.{OutOfMemory};

    ghost from_gives = { λ _ e. e ≡ OutOfMemory };

    fn from(_error: AllocError) -> AskFault {
        AskFault::OutOfMemory
    }
}

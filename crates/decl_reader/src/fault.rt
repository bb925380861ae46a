//! Why a declaration couldn't be read.

ghost use Rattle.std.specs.Prelude.{◌≡◌};
ghost use Rattle.decl_reader.specs.declared.fault.DeclFault.TheVariants.{Bytes, OutOfMemory};
ghost use Rattle.decl_reader.specs.Faults.{of_arena, of_read};

use std::alloc::{AllocError, AllocFailed};
use type_terms::ArenaError;
use wire_bytes::{ByteFault, ReadFault};

/// Why a declaration couldn't be read.
#[derive(Clone, Copy, Debug, PartialEq, Eq)]
pub enum DeclFault {
    /// Its bytes spell none. This is the first thing that is wrong with them.
    Bytes(ByteFault),
    /// The arena has as many nodes as it may have.
    Nodes,
    OutOfMemory,
}

impl From<ByteFault> for DeclFault {
    ghost from_gives = { λ f e. e ≡ Bytes f };

    fn from(fault: ByteFault) -> DeclFault {
        DeclFault::Bytes(fault)
    }
}

impl From<ReadFault> for DeclFault {
    ghost from_gives = { λ f e. e ≡ of_read f };

    fn from(fault: ReadFault) -> DeclFault {
        match fault {
            ReadFault::Bytes(fault) => DeclFault::Bytes(fault),
            ReadFault::OutOfMemory => DeclFault::OutOfMemory,
        }
    }
}

impl From<AllocError> for DeclFault {
    ghost from_gives = { λ _ e. e ≡ OutOfMemory };

    fn from(_error: AllocError) -> DeclFault {
        DeclFault::OutOfMemory
    }
}

impl<T: Drop> From<AllocFailed<T>> for DeclFault {
    ghost from_gives = { λ _ e. e ≡ OutOfMemory };

    fn from(_error: AllocFailed<T>) -> DeclFault {
        DeclFault::OutOfMemory
    }
}

impl From<ArenaError> for DeclFault {
    ghost from_gives = { λ f e. e ≡ of_arena f };

    fn from(error: ArenaError) -> DeclFault {
        match error {
            ArenaError::Full => DeclFault::Nodes,
            ArenaError::OutOfMemory => DeclFault::OutOfMemory,
        }
    }
}

//! What is wrong with bytes, and where.

ghost use Rattle.std.specs.Prelude.{◌≡◌};
ghost use Rattle.wire_bytes.specs.declared.fault.ReadFault.TheVariants.{Bytes, OutOfMemory};

use std::alloc::{AllocError, AllocFailed};
use std::fmt::{self, Display, Formatter, Write};

/// The first thing that is wrong with the bytes of a file. Each `at` counts from the file's first byte.
#[derive(Clone, Copy, Debug, PartialEq, Eq)]
pub enum ByteFault {
    /// The part that is read ends at `at`, and a byte beyond it is needed.
    Ended { at: u64 },
    /// What begins at `at` is no number, or isn't the shortest spelling of one.
    Number { at: u64 },
    /// The number at `at` is out of the range that its place allows.
    Range { at: u64, value: u64 },
    /// The tag at `at` is none that its place allows.
    Tag { at: u64, value: u64 },
    /// The path or name at `at` isn't above the one before it.
    Order { at: u64 },
    /// The file's format version is none that is read.
    Version { found: u64 },
    /// The constant at `at` lies outside -2^127 to 2^127 - 1.
    Wide { at: u64 },
    /// The constant whose type stands at `at` is a floating or complex one.
    Float { at: u64 },
    /// The type at `at` is no type of a constant.
    NotConst { at: u64 },
    /// The file goes on at `at`, after its last part.
    Trailing { at: u64 },
}

impl Display for ByteFault {
    ghost use Rattle.std.specs.Prelude.{Some};
    ghost use Rattle.wire_bytes.specs.FaultText.{fault_text};

    ghost output = { λ f. Some (fault_text f) };

    fn fmt<W: Write>(&self, f: &mut Formatter<W>) -> fmt::Result {
        match self {
            ByteFault::Ended { at } => write!(f, "ended at {at}"),
            ByteFault::Number { at } => write!(f, "number at {at}"),
            ByteFault::Range { at, value } => write!(f, "range at {at} value {value}"),
            ByteFault::Tag { at, value } => write!(f, "tag at {at} value {value}"),
            ByteFault::Order { at } => write!(f, "order at {at}"),
            ByteFault::Version { found } => write!(f, "version {found}"),
            ByteFault::Wide { at } => write!(f, "wide at {at}"),
            ByteFault::Float { at } => write!(f, "float at {at}"),
            ByteFault::NotConst { at } => write!(f, "notconst at {at}"),
            ByteFault::Trailing { at } => write!(f, "trailing at {at}"),
        }
    }
}

/// Why something couldn't be read from bytes by a reader that takes memory.
#[derive(Clone, Copy, Debug, PartialEq, Eq)]
pub enum ReadFault {
    /// The bytes spell none. This is the first thing that is wrong with them.
    Bytes(ByteFault),
    OutOfMemory,
}

impl From<ByteFault> for ReadFault {
    ghost from_gives = { λ f e. e ≡ Bytes f };

    fn from(fault: ByteFault) -> ReadFault {
        ReadFault::Bytes(fault)
    }
}

impl From<AllocError> for ReadFault {
    ghost from_gives = { λ _ e. e ≡ OutOfMemory };

    fn from(_error: AllocError) -> ReadFault {
        ReadFault::OutOfMemory
    }
}

impl<T: Drop> From<AllocFailed<T>> for ReadFault {
    ghost from_gives = { λ _ e. e ≡ OutOfMemory };

    fn from(_error: AllocFailed<T>) -> ReadFault {
        ReadFault::OutOfMemory
    }
}

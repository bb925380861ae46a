use std::alloc::{AllocError, AllocFailed};

/// Why a line has no answer.
#[derive(Clone, Copy)]
pub enum NoAnswer {
    /// It isn't written as a case is.
    NoCase,
    OutOfMemory,
}

impl From<AllocError> for NoAnswer {
    fn from(_: AllocError) -> NoAnswer {
        NoAnswer::OutOfMemory
    }
}

impl<T: Drop> From<AllocFailed<T>> for NoAnswer {
    fn from(_: AllocFailed<T>) -> NoAnswer {
        NoAnswer::OutOfMemory
    }
}

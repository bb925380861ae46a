use std::alloc::AllocError;
use thiserror::Error;

/// Why a case isn't answered.
#[derive(Debug, Drop, Error)]
pub enum CaseFault {
    #[error("the line is no case")]
    Unclear,
    #[error("out of memory")]
    OutOfMemory(#[from(alloc)] AllocError),
}

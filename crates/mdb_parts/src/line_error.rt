//! Why a line gives no step.

ghost use Rattle.std.specs.Prelude.{◌≡◌};
ghost use Rattle.mdb_parts.specs.declared.line_error.LineError.TheVariants.{OutOfMemory as NoMemory};

use mdb_base::OutOfMemory;
use std::alloc::{AllocError, AllocFailed};
use thiserror::Error;

/// Why a line gives no step: it is not in the grammar, or there was no memory.
#[derive(Clone, Copy, Debug, PartialEq, Eq, Error)]
pub enum LineError {
    #[error("the line is malformed")]
    Bad,
    #[error("out of memory")]
    OutOfMemory,
}

impl From<AllocError> for LineError {
    ghost from_gives = { λ _ e. e ≡ NoMemory };

    fn from(_e: AllocError) -> LineError {
        LineError::OutOfMemory
    }
}

impl From<OutOfMemory> for LineError {
    ghost from_gives = { λ _ e. e ≡ NoMemory };

    fn from(_e: OutOfMemory) -> LineError {
        LineError::OutOfMemory
    }
}

impl<T: Drop> From<AllocFailed<T>> for LineError {
    ghost from_gives = { λ _ e. e ≡ NoMemory };

    fn from(_e: AllocFailed<T>) -> LineError {
        LineError::OutOfMemory
    }
}

//! What goes wrong in a measured run.

use mdb_base::OutOfMemory;
use std::alloc::{AllocError, AllocFailed};
use thiserror::Error;

/// Why a run came to no good end.
#[derive(Clone, Copy, Debug, Error)]
pub enum BenchError {
    #[error("out of memory")]
    OutOfMemory,
    #[error("other words are wanted")]
    Words,
    #[error("the options or the shares don't go together")]
    Options,
    /// A step was answered otherwise than in a driver whose servers all answer.
    #[error("another answer")]
    Answer,
    #[error("no number is left for a request")]
    Number,
    #[error("a thread was not started")]
    Thread,
    #[error("a seat is missing")]
    Seat,
    #[error("entries are missing")]
    Missing,
    #[error("the clock can't be read")]
    Clock,
}

impl From<OutOfMemory> for BenchError {
    fn from(_why: OutOfMemory) -> BenchError {
        BenchError::OutOfMemory
    }
}

impl From<AllocError> for BenchError {
    fn from(_why: AllocError) -> BenchError {
        BenchError::OutOfMemory
    }
}

impl<T: Drop> From<AllocFailed<T>> for BenchError {
    fn from(_why: AllocFailed<T>) -> BenchError {
        BenchError::OutOfMemory
    }
}

//! What goes wrong.

use mdb_base::OutOfMemory;
use std::alloc::{AllocError, AllocFailed};
use thiserror::Error;

/// Why a part came to no good end.
#[derive(Clone, Copy, Debug, Error)]
pub enum DemoError {
    #[error("out of memory")]
    OutOfMemory,
    #[error("the options don't go together")]
    Options,
    #[error("a request got no connection")]
    Request,
    #[error("a connection was not taken back")]
    Return,
    #[error("a thread was not started")]
    Thread,
    #[error("the clock can't be read")]
    Clock,
}

impl From<OutOfMemory> for DemoError {
    fn from(_why: OutOfMemory) -> DemoError {
        DemoError::OutOfMemory
    }
}

impl From<AllocError> for DemoError {
    fn from(_why: AllocError) -> DemoError {
        DemoError::OutOfMemory
    }
}

impl<T: Drop> From<AllocFailed<T>> for DemoError {
    fn from(_why: AllocFailed<T>) -> DemoError {
        DemoError::OutOfMemory
    }
}

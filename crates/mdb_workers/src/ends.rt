//! How a worker ends.

use mdb_log::Step;
use thiserror::Error;

/// How a worker ended.
#[derive(Clone, Copy, Debug, PartialEq, Eq)]
pub enum Work {
    /// There was no connection left to establish.
    Idle,
    /// As many jobs were done as it was given.
    Spent,
}

/// Why a worker ended early.
#[derive(Debug, Drop, Error)]
pub enum WorkError {
    /// There was no memory: the pool and the number of the connection that was claimed, and the step that wasn't reported.
    #[error("out of memory")]
    OutOfMemory(Option<(u32, u32)>, Option<Step>),
}

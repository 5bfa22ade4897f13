//! Why a try makes no step.

use mdb_log::Step;
use thiserror::Error;

/// Why a try made no step.
#[derive(Debug, Drop, Error)]
pub enum TryError {
    /// Another seat had the turn: the turn word that was found, and the step back.
    #[error("another seat has the turn")]
    Busy(u64, Step),
    /// There was no memory for the step.
    #[error("out of memory")]
    OutOfMemory,
}

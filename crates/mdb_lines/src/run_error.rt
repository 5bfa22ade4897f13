//! Why a run ends before its end, and its status.

ghost use Rattle.std.specs.Prelude.{◌≡◌};
ghost use Rattle.mdb_lines.specs.declared.run_error.RunError.TheVariants.{OutOfMemory as NoMemory};
ghost use Rattle.mdb_lines.specs.Status.{status};

use mdb_base::OutOfMemory;
use std::alloc::AllocError;
use thiserror::Error;

/// The status with which a program ends: 0 at the end of its input.
pub type Status = u8;

/// Why a run ends before its end.
#[derive(Clone, Copy, Debug, PartialEq, Eq, Error)]
pub enum RunError {
    /// There was no memory. The text of a log of the first lines was written, or a part of it.
    #[error("out of memory")]
    OutOfMemory,
    /// The source failed. Nothing was written.
    #[error("read fault")]
    ReadFault,
    /// The sink failed, or took nothing of a piece. A part of the log's text was written.
    #[error("write fault")]
    WriteFault,
    /// The line of this number, counted from 1, is the first that is none. Exactly the earlier entries were written.
    #[error("line {0} is malformed")]
    Malformed(u32),
    /// The input has more than 131,072 bytes. Nothing was written.
    #[error("input is too long")]
    TooLong,
}

impl From<OutOfMemory> for RunError {
    ghost from_gives = { λ _ e. e ≡ NoMemory };

    fn from(_e: OutOfMemory) -> RunError {
        RunError::OutOfMemory
    }
}

impl From<AllocError> for RunError {
    ghost from_gives = { λ _ e. e ≡ NoMemory };

    fn from(_e: AllocError) -> RunError {
        RunError::OutOfMemory
    }
}

/// The status of a run that ended so: 1 for lack of memory, 3 for a read error, 4 for a write error, 5 for a malformed
/// line, 6 for an input that is too long.
pub fn status_of(e: RunError) -> Status
    ensures { result ≡ status e }
{
    match e {
        RunError::OutOfMemory => 1,
        RunError::ReadFault => 3,
        RunError::WriteFault => 4,
        RunError::Malformed(_) => 5,
        RunError::TooLong => 6,
    }
}

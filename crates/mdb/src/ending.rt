//! What is said where a command ends early, and its status.

use crate::output::Output;
use mdb_base::{NullSink, Sink};
use mdb_lines::{RunError, Status, status_of, tell_error, tell_usage};

/// Says on a line for errors of what the command read or wrote, or of its words, what is wrong.
pub(crate) fn tell_of<E: Sink>(errors: &mut E, name: &str, text: &str) {
    tell_usage(errors, "mdb: ");
    tell_usage(errors, name);
    tell_usage(errors, ": ");
    tell_usage(errors, text);
    tell_usage(errors, "\n");
}

/// Says which error ended the command. It takes no memory.
pub(crate) fn tell<E: Sink>(errors: &mut E, name: &str, e: RunError) {
    tell_usage(errors, "mdb: ");
    tell_usage(errors, name);
    tell_usage(errors, ": ");
    tell_error(errors, e);
}

/// The error that a status of the other programs stands for.
pub(crate) fn error_of(status: Status) -> Option<RunError> {
    match status {
        1 => Some(RunError::OutOfMemory),
        3 => Some(RunError::ReadFault),
        4 => Some(RunError::WriteFault),
        6 => Some(RunError::TooLong),
        _ => None,
    }
}

/// The status of what a command came to. An error is told, but for that of an output that nobody reads any more.
pub(crate) fn end<W, E: Sink>(
    errors: &mut E,
    name: &str,
    output: &Output<W>,
    answer: Result<Status, RunError>,
) -> Status {
    match answer {
        Ok(status) => status,
        Err(RunError::WriteFault) => {
            if !output.is_closed() {
                tell(errors, "standard output", RunError::WriteFault);
            }
            status_of(RunError::WriteFault)
        }
        Err(e) => {
            tell(errors, name, e);
            status_of(e)
        }
    }
}

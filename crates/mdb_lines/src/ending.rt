//! How a program ends that ran a script.

ghost use Rattle.std.specs.Prelude.{◌≡◌, MatchResult};
ghost use Rattle.mdb_lines.specs.Status.{Tells, message, status};

use crate::run_error::{RunError, Status, status_of};
use crate::status::tell_error;
use mdb_base::Sink;

/// The status of a run that ended with an error: 1 for lack of memory, 3 for a read error, 4 for a write error, 5 for a
/// malformed line, 6 for an input that is too long. The error's text goes to `errors`, as far as it takes it. It takes no memory.
pub fn end_with_error<E: Sink>(errors: &mut E, e: RunError) -> Status
    ensures status { result ≡ status e }
    ensures told { Tells (record { held = E.held errors.old; faults = E.faults errors.old }) (record { held = E.held errors.new; faults = E.faults errors.new }) (message e) }
{
    tell_error(errors, e);
    status_of(e)
}

/// The status of what a run answered: 0 for what it made, which is dropped, and that of the error else, whose text goes to `errors`. It takes no memory.
pub fn end_run<T: Drop, E: Sink>(answer: Result<T, RunError>, errors: &mut E) -> Status
    ensures status { MatchResult answer (λ made. result ≡ 0) (λ e. result ≡ status e) }
    ensures told { MatchResult answer (λ made. (E.held errors.new ≡ E.held errors.old) × (E.faults errors.new ≡ E.faults errors.old))
        (λ e. Tells (record { held = E.held errors.old; faults = E.faults errors.old }) (record { held = E.held errors.new; faults = E.faults errors.new }) (message e)) }
{
    match answer {
        Ok(_) => 0,
        Err(e) => end_with_error(errors, e),
    }
}

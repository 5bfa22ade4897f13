//! Running a script.

ghost use Rattle.std.specs.Prelude.{◌≡◌, ◌≤◌, ◌<◌, ◌⊎◌, ℕ, List, length, IfOk, IfErr, MatchResult, Some};
ghost use Rattle.mdb_log.specs.declared.step.Step.{Step};
ghost use Rattle.mdb_log.specs.declared.log.Entry.{Entry};
ghost use Rattle.mdb_base.specs.Outside.{Rose};
ghost use Rattle.mdb_lines.specs.declared.run_error.RunError.TheVariants.{OutOfMemory as NoMemory, Malformed, TooLong};
ghost use Rattle.mdb_runs.specs.Headline.{Headline};
ghost use Rattle.mdb_runs.specs.Runs.{Finished, Ended, IsBadAt, IsScript};

use mdb_base::{Sink, Source};
use mdb_lines::{MAX_INPUT, RunError, Status};
use mdb_runs::run_script;
use std::alloc::Global;

/// Runs a script as `mdb_script` does: it reads it whole, answers its lines one by one, and writes the text of each entry.
pub(crate) fn run<S: Source, K: Sink>(
    alloc: Global,
    source: &mut S,
    sink: &mut K,
) -> Result<Status, RunError>
    // What is written is the text of a log that keeps the headline.
    ensures headline { IfOk result (λ status. (status ≡ 0) × ((log : List Entry) × Headline
        (record { left = S.left source.old; reads = S.faults source.old; calls = S.calls source.old; held = K.held sink.old; writes = K.faults sink.old })
        (record { left = S.left source.new; reads = S.faults source.new; calls = S.calls source.new; held = K.held sink.new; writes = K.faults sink.new }) log)) }

    // Where it ends early, the entries of the lines before the end were written, or a front of their text.
    ensures ended { IfErr result (Ended
        (record { left = S.left source.old; reads = S.faults source.old; calls = S.calls source.old; held = K.held sink.old; writes = K.faults sink.old })
        (record { left = S.left source.new; reads = S.faults source.new; calls = S.calls source.new; held = K.held sink.new; writes = K.faults sink.new })) }

    // A script is run to its end where nothing fails, unless memory runs out.
    ensures complete { (input : List ℕ) (steps : List Step) → S.left source.old ≡ Some input → length input ≤ MAX_INPUT → IsScript input steps
        → ¬ (Rose (S.faults source.old) (S.faults source.new)) → ¬ (Rose (K.faults sink.old) (K.faults sink.new))
        → MatchResult result (λ status. status ≡ 0) (λ e. e ≡ NoMemory) }

    // The first line that spells no step is named where nothing fails, unless memory runs out.
    ensures malformed { (input : List ℕ) (number : ℕ) → S.left source.old ≡ Some input → length input ≤ MAX_INPUT → IsBadAt input number
        → ¬ (Rose (S.faults source.old) (S.faults source.new)) → ¬ (Rose (K.faults sink.old) (K.faults sink.new))
        → MatchResult result (λ status. ⊥) (λ e. (e ≡ Malformed number) ⊎ (e ≡ NoMemory)) }

    // An input of more bytes is too long where the source does not fail, unless memory runs out.
    ensures too_long { (input : List ℕ) → S.left source.old ≡ Some input → MAX_INPUT < length input
        → ¬ (Rose (S.faults source.old) (S.faults source.new)) → MatchResult result (λ status. ⊥) (λ e. (e ≡ TooLong) ⊎ (e ≡ NoMemory)) }
{
    match run_script(alloc, source, sink) {
        Ok(_log) => Ok(0),
        Err(e) => Err(e),
    }
}

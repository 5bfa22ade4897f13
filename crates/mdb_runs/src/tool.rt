//! The tool: its words, its statuses, and what it says of an error.

ghost use Rattle.std.specs.Prelude.{◌≡◌, ◌≤◌, ◌<◌, ℕ, List, [], length, map, Some};
ghost use Rattle.mdb_log.specs.declared.log.Entry.{Entry};
ghost use Rattle.mdb_log.specs.declared.step.Step.{Step};
ghost use Rattle.mdb_base.specs.Outside.{Rose};
ghost use Rattle.mdb_lines.specs.Loops.{ReadsFew};
ghost use Rattle.mdb_lines.specs.declared.run_error.RunError.TheVariants.{Malformed, TooLong};
ghost use Rattle.mdb_lines.specs.Status.{Tells, message, status};
ghost use Rattle.mdb_runs.specs.Headline.{Headline};
ghost use Rattle.mdb_runs.specs.Runs.{IsBadAt, IsScript};
ghost use Rattle.mdb_runs.specs.Tool.{ToolEnds, ToolTells, EndsWell, usage};

use crate::made::run_made;
use crate::run::run_script;
use mdb_base::{Sink, Source};
use mdb_generator::{ToolCommand, read_words};
use mdb_lines::{MAX_INPUT, Status, end_with_error, tell_usage};
use std::alloc::Global;

const USAGE: &str = "usage: mdb_script [make N | share K]\n";

// Says how the tool is used, and answers the status of a usage.
fn refuse_words<E: Sink>(errors: &mut E) -> Status
    ensures status { result ≡ 2 }
    ensures told { Tells (record { held = E.held errors.old; faults = E.faults errors.old }) (record { held = E.held errors.new; faults = E.faults errors.new }) usage }
{
    tell_usage(errors, USAGE);
    2
}

/// Runs the script on `source` where there are no words, and the generated script of n rounds at the words `make n`, of
/// which it writes the summary; it answers the status: 0 where the script ran to its end, 1 for lack of memory, 3 and 4 for
/// a read or write error, 5 for a malformed line, 6 for an input that is too long. All other words are a usage,
/// status 2, at which nothing is read or written. What ended the run goes to `errors`.
pub fn run_tool<S: Source, K: Sink, E: Sink>(
    alloc: Global,
    words: &[&str],
    source: &mut S,
    sink: &mut K,
    errors: &mut E,
) -> Status
    // A script on the source that ends with 0 keeps the headline.
    ensures headline { words.now ≡ [] → result ≡ 0 → (log : List Entry) × Headline
        (record { left = S.left source.old; reads = S.faults source.old; calls = S.calls source.old; held = K.held sink.old; writes = K.faults sink.old })
        (record { left = S.left source.new; reads = S.faults source.new; calls = S.calls source.new; held = K.held sink.new; writes = K.faults sink.new }) log }
    ensures ends { ToolEnds (map (λ w. w.now) words.now)
        (record { left = S.left source.old; reads = S.faults source.old; calls = S.calls source.old; held = K.held sink.old; writes = K.faults sink.old })
        (record { left = S.left source.new; reads = S.faults source.new; calls = S.calls source.new; held = K.held sink.new; writes = K.faults sink.new })
        (record { held = E.held errors.old; faults = E.faults errors.old }) (record { held = E.held errors.new; faults = E.faults errors.new }) result }

    // The source is read at most once more than there are bytes, and at most 131,073 times.
    ensures few { ReadsFew MAX_INPUT (S.left source.old) (S.left source.new) (S.calls source.old) (S.calls source.new) }

    // A script on the source is run to its end where nothing fails, unless memory runs out.
    ensures complete { (input : List ℕ) (steps : List Step) → words.now ≡ [] → S.left source.old ≡ Some input → length input ≤ MAX_INPUT → IsScript input steps
        → ¬ (Rose (S.faults source.old) (S.faults source.new)) → ¬ (Rose (K.faults sink.old) (K.faults sink.new)) → EndsWell result }

    // The first line that spells no step is told where nothing fails, and so is an input of more bytes, unless memory runs out.
    ensures malformed { (input : List ℕ) (number : ℕ) → words.now ≡ [] → S.left source.old ≡ Some input → length input ≤ MAX_INPUT → IsBadAt input number
        → ¬ (Rose (S.faults source.old) (S.faults source.new)) → ¬ (Rose (K.faults sink.old) (K.faults sink.new))
        → ToolTells (Malformed number) (record { held = E.held errors.old; faults = E.faults errors.old }) (record { held = E.held errors.new; faults = E.faults errors.new }) result }
    ensures too_long { (input : List ℕ) → words.now ≡ [] → S.left source.old ≡ Some input → MAX_INPUT < length input → ¬ (Rose (S.faults source.old) (S.faults source.new))
        → ToolTells TooLong (record { held = E.held errors.old; faults = E.faults errors.old }) (record { held = E.held errors.new; faults = E.faults errors.new }) result }
{
    match read_words(words) {
        ToolCommand::Script => match run_script(alloc, source, sink) {
            Ok(_log) => 0,
            Err(e) => end_with_error(errors, e),
        },
        ToolCommand::Make(n) => match run_made(alloc, n, sink) {
            Ok(()) => 0,
            Err(e) => end_with_error(errors, e),
        },
        ToolCommand::Share(_) => refuse_words(errors),
        ToolCommand::Usage => refuse_words(errors),
    }
}

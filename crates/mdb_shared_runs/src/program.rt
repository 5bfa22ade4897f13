//! The program: the tool, and scripts that players share.

ghost use Rattle.std.specs.Prelude.{◌≡◌, ◌≤◌, ◌<◌, ℕ, List, length, map, Some, IfSome, IfNone};
ghost use Rattle.mdb_log.specs.declared.step.Step.{Step};
ghost use Rattle.mdb_base.specs.Outside.{Rose};
ghost use Rattle.mdb_lines.specs.Loops.{ReadsFew};
ghost use Rattle.mdb_lines.specs.declared.run_error.RunError.TheVariants.{Malformed, TooLong};
ghost use Rattle.mdb_lines.specs.Status.{Tells, message, status};
ghost use Rattle.mdb_generator.specs.declared.words.ToolCommand.TheVariants.{Share};
ghost use Rattle.mdb_generator.specs.Words.{Names};
ghost use Rattle.mdb_runs.specs.Runs.{IsBadAt, IsScript};
ghost use Rattle.mdb_runs.specs.Tool.{ToolTells, EndsWell};
ghost use Rattle.mdb_shared_runs.specs.Program.{ProgramShares, ProgramEnds, ProgramHeadline, AsksScript};

use crate::shared::run_shared;
use mdb_base::{Sink, Source};
use mdb_generator::{ToolCommand, read_words};
use mdb_lines::{MAX_INPUT, Status, end_with_error};
use mdb_runs::run_tool;
use std::alloc::Global;
use std::sync::Wait;
use std::thread::Threads;

// How many players the words ask for.
fn player_count(words: &[&str]) -> Option<u32>
    ensures players { IfSome result (λ k. Names (map (λ w. w.now) words.now) (Share k)) }
    ensures none { IfNone result ((k : ℕ) → ¬ (Names (map (λ w. w.now) words.now) (Share k))) }
{
    match read_words(words) {
        ToolCommand::Share(k) => Some(k),
        ToolCommand::Script | ToolCommand::Make(_) | ToolCommand::Usage => None,
    }
}

// Runs the script on the source by k players, and answers its status.
fn share<R: Threads + Wait + Sync, S: Source, K: Sink, E: Sink>(
    rt: &R,
    alloc: Global,
    k: u32,
    source: &mut S,
    sink: &mut K,
    errors: &mut E,
) -> Status
    requires { (1 ≤ k) × (k ≤ 8) }
    ensures ends { ProgramShares k
        (record { left = S.left source.old; reads = S.faults source.old; calls = S.calls source.old; held = K.held sink.old; writes = K.faults sink.old })
        (record { left = S.left source.new; reads = S.faults source.new; calls = S.calls source.new; held = K.held sink.new; writes = K.faults sink.new })
        (record { held = E.held errors.old; faults = E.faults errors.old }) (record { held = E.held errors.new; faults = E.faults errors.new }) result }
    ensures few { ReadsFew MAX_INPUT (S.left source.old) (S.left source.new) (S.calls source.old) (S.calls source.new) }
    ensures complete { (input : List ℕ) (steps : List Step) → S.left source.old ≡ Some input → length input ≤ MAX_INPUT → IsScript input steps
        → ¬ (Rose (S.faults source.old) (S.faults source.new)) → ¬ (Rose (K.faults sink.old) (K.faults sink.new)) → EndsWell result }
    ensures malformed { (input : List ℕ) (number : ℕ) → S.left source.old ≡ Some input → length input ≤ MAX_INPUT → IsBadAt input number
        → ¬ (Rose (S.faults source.old) (S.faults source.new)) → ¬ (Rose (K.faults sink.old) (K.faults sink.new))
        → ToolTells (Malformed number) (record { held = E.held errors.old; faults = E.faults errors.old }) (record { held = E.held errors.new; faults = E.faults errors.new }) result }
    ensures too_long { (input : List ℕ) → S.left source.old ≡ Some input → MAX_INPUT < length input → ¬ (Rose (S.faults source.old) (S.faults source.new))
        → ToolTells TooLong (record { held = E.held errors.old; faults = E.faults errors.old }) (record { held = E.held errors.new; faults = E.faults errors.new }) result }
{
    match run_shared(rt, alloc, k, source, sink) {
        Ok(_log) => 0,
        Err(e) => end_with_error(errors, e),
    }
}

/// Runs the script on `source` by k players at the words `share k`, k being 1 to 8, and answers the status: 0 where the script ran to its end, 1
/// for lack of memory, 3 for a read error, 4 for a write error, 5 for a malformed line, 6 for an input that is too long. What ended the run goes
/// to `errors`. All other words are those of the tool.
pub fn run_program<R: Threads + Wait + Sync, S: Source, K: Sink, E: Sink>(
    rt: &R,
    alloc: Global,
    words: &[&str],
    source: &mut S,
    sink: &mut K,
    errors: &mut E,
) -> Status
    // A script on the source that ends with 0 keeps the headline.
    ensures headline { AsksScript (map (λ w. w.now) words.now) → result ≡ 0 → ProgramHeadline (map (λ w. w.now) words.now)
        (record { left = S.left source.old; reads = S.faults source.old; calls = S.calls source.old; held = K.held sink.old; writes = K.faults sink.old })
        (record { left = S.left source.new; reads = S.faults source.new; calls = S.calls source.new; held = K.held sink.new; writes = K.faults sink.new }) }
    ensures ends { ProgramEnds (map (λ w. w.now) words.now)
        (record { left = S.left source.old; reads = S.faults source.old; calls = S.calls source.old; held = K.held sink.old; writes = K.faults sink.old })
        (record { left = S.left source.new; reads = S.faults source.new; calls = S.calls source.new; held = K.held sink.new; writes = K.faults sink.new })
        (record { held = E.held errors.old; faults = E.faults errors.old }) (record { held = E.held errors.new; faults = E.faults errors.new }) result }

    // The source is read at most once more than there are bytes, and at most 131,073 times.
    ensures few { ReadsFew MAX_INPUT (S.left source.old) (S.left source.new) (S.calls source.old) (S.calls source.new) }

    // A script on the source is run to its end where nothing fails, unless memory runs out.
    ensures complete { (input : List ℕ) (steps : List Step) → AsksScript (map (λ w. w.now) words.now) → S.left source.old ≡ Some input → length input ≤ MAX_INPUT → IsScript input steps
        → ¬ (Rose (S.faults source.old) (S.faults source.new)) → ¬ (Rose (K.faults sink.old) (K.faults sink.new)) → EndsWell result }

    // The first line that spells no step is told where nothing fails, and so is an input of more bytes, unless memory runs out.
    ensures malformed { (input : List ℕ) (number : ℕ) → AsksScript (map (λ w. w.now) words.now) → S.left source.old ≡ Some input → length input ≤ MAX_INPUT → IsBadAt input number
        → ¬ (Rose (S.faults source.old) (S.faults source.new)) → ¬ (Rose (K.faults sink.old) (K.faults sink.new))
        → ToolTells (Malformed number) (record { held = E.held errors.old; faults = E.faults errors.old }) (record { held = E.held errors.new; faults = E.faults errors.new }) result }
    ensures too_long { (input : List ℕ) → AsksScript (map (λ w. w.now) words.now) → S.left source.old ≡ Some input → MAX_INPUT < length input → ¬ (Rose (S.faults source.old) (S.faults source.new))
        → ToolTells TooLong (record { held = E.held errors.old; faults = E.faults errors.old }) (record { held = E.held errors.new; faults = E.faults errors.new }) result }
{
    match player_count(words) {
        Some(k) => share(rt, alloc, k, source, sink, errors),
        None => run_tool(alloc, words, source, sink, errors),
    }
}

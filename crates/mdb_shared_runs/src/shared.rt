//! Runs of one script by several players.

ghost use Rattle.std.specs.Prelude.{◌≡◌, ◌<◌, ◌≤◌, ℕ, List, All, IfOk, IfErr, MatchResult, Some, length};
ghost use Rattle.mdb_base.specs.Outside.{Rose};
ghost use Rattle.mdb_log.specs.declared.step.Step.{Step};
ghost use Rattle.mdb_lines.specs.Spelling.{HasSpelling};
ghost use Rattle.mdb_lines.specs.Script.{AreAllowed};
ghost use Rattle.mdb_lines.specs.LogText.{text_of};
ghost use Rattle.mdb_lines.specs.Loops.{ReadsFew};
ghost use Rattle.mdb_lines.specs.declared.run_error.RunError.TheVariants.{OutOfMemory as NoMemory, Malformed, TooLong};
ghost use Rattle.mdb_runs.specs.Runs.{IsWithin, IsScript, IsBadAt, EndsWith};
ghost use Rattle.mdb_shared_runs.specs.Headline.{SharedHeadline};
ghost use Rattle.mdb_shared_runs.specs.Reading.{NoScript};
ghost use Rattle.mdb_shared_runs.specs.Scripts.{Shared};
ghost use Rattle.mdb_shared_runs.specs.Runs.{IsShare, Writes, SharedFinished, SharedEnded};

use crate::gate::{LineGate, NoGate};
use crate::lines::read_steps;
use crate::opening::open;
use crate::player::SharedLines;
use crate::players::share;
use mdb_base::{OutOfMemory, Sink, Source};
use mdb_lines::{MAX_INPUT, RunError, log_text, read_all, write_all};
use mdb_log::{Log, Step};
use std::alloc::Global;
use std::sync::Wait;
use std::thread::Threads;

// The log of the steps: the first opens the driver, and the players do the others.
fn share_steps<R: Threads + Wait + Sync, G: LineGate>(
    rt: &R,
    alloc: Global,
    k: u32,
    gate: &G,
    steps: &[Step],
) -> Result<Log, OutOfMemory>
    requires allowed { AreAllowed 1 steps.now }
    requires within { IsWithin steps.now }
    requires few { length steps.now ≤ MAX_INPUT }
    requires players { (1 ≤ k) × (k ≤ 8) }
    ensures shared { IfOk result (Shared k steps.now) }
    ensures spelled { IfOk result (All (λ e. HasSpelling e.step)) }
{
    match steps {
        [] => Ok(Log::new(alloc)),
        [first, later @ ..] => {
            let (core, log) = open(alloc, first)?;
            let lines = SharedLines {
                players: k,
                steps: later,
                gate,
            };
            share(rt, alloc, lines, core, log)
        }
    }
}

// Writes a text, flushed.
fn write_text<K: Sink>(text: &[u8], sink: &mut K) -> Result<(), RunError>
    ensures { Writes text.now (K.held sink.old) (K.held sink.new) (K.faults sink.old) (K.faults sink.new) result }
{
    match write_all(sink, text) {
        Ok(()) => match sink.flush() {
            Ok(()) => Ok(()),
            Err(_) => Err(RunError::WriteFault),
        },
        Err(_) => Err(RunError::WriteFault),
    }
}

// The log of an input, with its text.
fn share_input<R: Threads + Wait + Sync, G: LineGate>(
    rt: &R,
    alloc: Global,
    k: u32,
    gate: &G,
    input: &[u8],
) -> Result<(Log, Vec<u8>), RunError>
    requires short { length input.now ≤ MAX_INPUT }
    requires players { (1 ≤ k) × (k ≤ 8) }
    ensures share { IfOk result (λ r. IsShare k input.now r.0 r.1.items) }
    ensures none { IfErr result (NoScript input.now) }
{
    let steps = match read_steps(alloc, input) {
        Ok(steps) => steps,
        Err(e) => return Err(e),
    };
    let log = share_steps(rt, alloc, k, gate, steps.as_slice())?;
    let text = log_text(alloc, log.entries())?;
    Ok((log, text))
}

// Reads a script, shares its lines, and writes the text of the log.
fn run<R: Threads + Wait + Sync, S: Source, K: Sink, G: LineGate>(
    rt: &R,
    alloc: Global,
    k: u32,
    gate: &G,
    source: &mut S,
    sink: &mut K,
) -> Result<Log, RunError>
    requires { (1 ≤ k) × (k ≤ 8) }
    ensures finished { IfOk result (SharedFinished k
        (record { left = S.left source.old; reads = S.faults source.old; calls = S.calls source.old; held = K.held sink.old; writes = K.faults sink.old })
        (record { left = S.left source.new; reads = S.faults source.new; calls = S.calls source.new; held = K.held sink.new; writes = K.faults sink.new })) }
    ensures ended { IfErr result (SharedEnded k
        (record { left = S.left source.old; reads = S.faults source.old; calls = S.calls source.old; held = K.held sink.old; writes = K.faults sink.old })
        (record { left = S.left source.new; reads = S.faults source.new; calls = S.calls source.new; held = K.held sink.new; writes = K.faults sink.new })) }
    ensures few { ReadsFew MAX_INPUT (S.left source.old) (S.left source.new) (S.calls source.old) (S.calls source.new) }
{
    let input = match read_all(alloc, source, MAX_INPUT) {
        Ok(input) => input,
        Err(e) => return Err(e),
    };
    let (log, text) = match share_input(rt, alloc, k, gate, input.as_slice()) {
        Ok(made) => made,
        Err(e) => return Err(e),
    };
    match write_text(text.as_slice(), sink) {
        Ok(()) => Ok(log),
        Err(e) => Err(e),
    }
}

/// Reads a whole script, opens its driver, and lets k players do the lines behind the first, each on a seat of its own in a thread of its own:
/// the line i, counted from 1 behind the first, is one of the player i mod k, which does its lines in order and calls the gate before each. Once
/// all have ended, the text of the one log is written, flushed.
pub fn run_gated<R: Threads + Wait + Sync, S: Source, K: Sink, G: LineGate>(
    rt: &R,
    alloc: Global,
    k: u32,
    gate: &G,
    source: &mut S,
    sink: &mut K,
) -> Result<Log, RunError>
    requires { (1 ≤ k) × (k ≤ 8) }
    ensures headline { IfOk result (SharedHeadline k
        (record { left = S.left source.old; reads = S.faults source.old; calls = S.calls source.old; held = K.held sink.old; writes = K.faults sink.old })
        (record { left = S.left source.new; reads = S.faults source.new; calls = S.calls source.new; held = K.held sink.new; writes = K.faults sink.new })) }

    // What stands behind it: the log is that of the steps, shared, and a driver stands for it.
    ensures finished { IfOk result (SharedFinished k
        (record { left = S.left source.old; reads = S.faults source.old; calls = S.calls source.old; held = K.held sink.old; writes = K.faults sink.old })
        (record { left = S.left source.new; reads = S.faults source.new; calls = S.calls source.new; held = K.held sink.new; writes = K.faults sink.new })) }
    ensures ended { IfErr result (SharedEnded k
        (record { left = S.left source.old; reads = S.faults source.old; calls = S.calls source.old; held = K.held sink.old; writes = K.faults sink.old })
        (record { left = S.left source.new; reads = S.faults source.new; calls = S.calls source.new; held = K.held sink.new; writes = K.faults sink.new })) }

    // The source is read at most once more than there are bytes, and at most 131,073 times.
    ensures few { ReadsFew MAX_INPUT (S.left source.old) (S.left source.new) (S.calls source.old) (S.calls source.new) }

    // A script is shared to its end where nothing fails, unless memory runs out.
    ensures complete { (input : List ℕ) (steps : List Step) → S.left source.old ≡ Some input → length input ≤ MAX_INPUT → IsScript input steps
        → ¬ (Rose (S.faults source.old) (S.faults source.new)) → ¬ (Rose (K.faults sink.old) (K.faults sink.new))
        → MatchResult result (Shared k steps) (λ e. e ≡ NoMemory) }

    // The first line that spells no step is named where nothing fails, unless memory runs out.
    ensures malformed { (input : List ℕ) (number : ℕ) → S.left source.old ≡ Some input → length input ≤ MAX_INPUT → IsBadAt input number
        → ¬ (Rose (S.faults source.old) (S.faults source.new)) → ¬ (Rose (K.faults sink.old) (K.faults sink.new)) → EndsWith (Malformed number) result }

    // An input of more bytes is too long where the source does not fail, unless memory runs out.
    ensures too_long { (input : List ℕ) → S.left source.old ≡ Some input → MAX_INPUT < length input
        → ¬ (Rose (S.faults source.old) (S.faults source.new)) → EndsWith TooLong result }
{
    run(rt, alloc, k, gate, source, sink)
}

/// A run of a script by k players with no gate.
pub fn run_shared<R: Threads + Wait + Sync, S: Source, K: Sink>(
    rt: &R,
    alloc: Global,
    k: u32,
    source: &mut S,
    sink: &mut K,
) -> Result<Log, RunError>
    requires { (1 ≤ k) × (k ≤ 8) }
    ensures headline { IfOk result (SharedHeadline k
        (record { left = S.left source.old; reads = S.faults source.old; calls = S.calls source.old; held = K.held sink.old; writes = K.faults sink.old })
        (record { left = S.left source.new; reads = S.faults source.new; calls = S.calls source.new; held = K.held sink.new; writes = K.faults sink.new })) }

    // What stands behind it: the log is that of the steps, shared, and a driver stands for it.
    ensures finished { IfOk result (SharedFinished k
        (record { left = S.left source.old; reads = S.faults source.old; calls = S.calls source.old; held = K.held sink.old; writes = K.faults sink.old })
        (record { left = S.left source.new; reads = S.faults source.new; calls = S.calls source.new; held = K.held sink.new; writes = K.faults sink.new })) }
    ensures ended { IfErr result (SharedEnded k
        (record { left = S.left source.old; reads = S.faults source.old; calls = S.calls source.old; held = K.held sink.old; writes = K.faults sink.old })
        (record { left = S.left source.new; reads = S.faults source.new; calls = S.calls source.new; held = K.held sink.new; writes = K.faults sink.new })) }

    // The source is read at most once more than there are bytes, and at most 131,073 times.
    ensures few { ReadsFew MAX_INPUT (S.left source.old) (S.left source.new) (S.calls source.old) (S.calls source.new) }

    // A script is shared to its end where nothing fails, unless memory runs out.
    ensures complete { (input : List ℕ) (steps : List Step) → S.left source.old ≡ Some input → length input ≤ MAX_INPUT → IsScript input steps
        → ¬ (Rose (S.faults source.old) (S.faults source.new)) → ¬ (Rose (K.faults sink.old) (K.faults sink.new))
        → MatchResult result (Shared k steps) (λ e. e ≡ NoMemory) }

    // The first line that spells no step is named where nothing fails, unless memory runs out.
    ensures malformed { (input : List ℕ) (number : ℕ) → S.left source.old ≡ Some input → length input ≤ MAX_INPUT → IsBadAt input number
        → ¬ (Rose (S.faults source.old) (S.faults source.new)) → ¬ (Rose (K.faults sink.old) (K.faults sink.new)) → EndsWith (Malformed number) result }

    // An input of more bytes is too long where the source does not fail, unless memory runs out.
    ensures too_long { (input : List ℕ) → S.left source.old ≡ Some input → MAX_INPUT < length input
        → ¬ (Rose (S.faults source.old) (S.faults source.new)) → EndsWith TooLong result }
{
    run_gated(rt, alloc, k, &NoGate, source, sink)
}

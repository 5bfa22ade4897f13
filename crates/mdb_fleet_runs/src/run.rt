//! Runs of a replica set before a driver.

ghost use Rattle.std.specs.Prelude.{◌≡◌, ◌+◌, ◌≤◌, ◌<◌, [], ◌∷◌, ℕ, List, IfOk, IfErr, OnOk, MatchResult, length, Some, string_bytes};
ghost use Rattle.mdb_base.specs.Outside.{Rose};
ghost use Rattle.mdb_lines.specs.Loops.{ReadsFew};
ghost use Rattle.mdb_lines.specs.declared.run_error.RunError.TheVariants.{OutOfMemory as NoMemory, Malformed, TooLong};
ghost use Rattle.mdb_fleets.specs.ReplicaSet.{new_set};
ghost use Rattle.mdb_fleet_runs.specs.declared.event.Event.{Event as EventRecord};
ghost use Rattle.mdb_fleet_runs.specs.FleetRuns.{Ran, RunEnds, LineRuns, OpenRuns, Finished, Ended, EndsWith, Begins, IsBadAt, Played};
ghost use Rattle.mdb_fleet_runs.specs.Harnesses.{Watches, WatchesSome, trial_in, IsEarly, HasLine};
ghost use Rattle.mdb_fleet_runs.specs.Trials.{opened, log_in, trial_of};

use crate::event::Event;
use crate::event_reading::{read_count, read_event};
use crate::harness::Harness;
use crate::shown::Shown;
use mdb_base::{OutOfMemory, Sink, Source};
use mdb_lines::{LineError, MAX_INPUT, RunError, cut_line, read_all, write_all};
use mdb_log::Log;
use std::alloc::Global;

// Lets an event happen, and gives its line.
fn line_of(
    alloc: Global,
    event: Event,
    number: u32,
    harness: &mut Harness,
    log: &mut Log,
) -> Result<String, OutOfMemory>
    requires watches { WatchesSome harness.old log.old }
    requires early { IsEarly number harness.old.fleet }
    requires number { number ≤ 131074 }
    ensures { IfOk result (λ text. (n : ℕ) → Watches n harness.old log.old → HasLine n event (trial_in harness.old log.old) harness.new log.new (string_bytes text)) }
{
    let answer = harness.step(alloc, log, event)?;
    let shown = Shown(harness.description());
    Ok(format!(in alloc; "{event} | {answer} | {shown}\n")?)
}

// Lets the event of one line happen, and writes its line.
fn one_line<K: Sink>(
    alloc: Global,
    line: &[u8],
    number: u32,
    harness: &mut Harness,
    log: &mut Log,
    sink: &mut K,
) -> Result<(), RunError>
    requires watches { WatchesSome harness.old log.old }
    requires early { IsEarly number harness.old.fleet }
    requires number { number ≤ 131074 }
    ensures runs { (n : ℕ) → Watches n harness.old log.old → LineRuns n number line.now (trial_in harness.old log.old) (trial_in harness.new log.new) (K.held sink.old) (K.held sink.new) (K.faults sink.old) (K.faults sink.new) result }
    ensures watches { OnOk result ((n : ℕ) → Watches n harness.old log.old → Watches n harness.new log.new) }
{
    let event = match read_event(alloc, line) {
        Ok(event) => event,
        Err(LineError::Bad) => return Err(RunError::Malformed(number)),
        Err(LineError::OutOfMemory) => return Err(RunError::OutOfMemory),
    };
    let text = line_of(alloc, event, number, harness, log)?;
    match write_all(sink, text.as_bytes()) {
        Ok(()) => Ok(()),
        Err(_) => Err(RunError::WriteFault),
    }
}

// Opens what the first line says.
fn open(alloc: Global, line: &[u8], log: &mut Log) -> Result<Harness, RunError>
    requires { log.old ≡ [] }
    ensures { OpenRuns line.now log.new result }
{
    let count = match read_count(alloc, line) {
        Ok(count) => count,
        Err(LineError::Bad) => return Err(RunError::Malformed(1)),
        Err(LineError::OutOfMemory) => return Err(RunError::OutOfMemory),
    };
    Ok(Harness::open(alloc, log, count)?)
}

// Runs the lines of an input that is not empty.
fn run_lines<K: Sink>(alloc: Global, input: &[u8], sink: &mut K) -> Result<Log, RunError>
    requires some { 0 < length input.now }
    requires few { length input.now ≤ MAX_INPUT }
    ensures ran { IfOk result (λ log. Ran input.now log (K.held sink.old) (K.held sink.new) (K.faults sink.old) (K.faults sink.new)) }
    ensures ends { IfErr result (RunEnds input.now (K.held sink.old) (K.held sink.new) (K.faults sink.old) (K.faults sink.new)) }
{
    let mut log = Log::new(alloc);
    let Some((first, behind)) = cut_line(input) else {
        return Err(RunError::Malformed(1));
    };
    let mut harness = match open(alloc, first, &mut log) {
        Ok(harness) => harness,
        Err(e) => return Err(e),
    };
    let mut rest = behind;
    let mut number = 2u32;
    while !rest.is_empty() {
        match cut_line(rest) {
            None => return Err(RunError::Malformed(number)),
            Some((line, behind)) => {
                match one_line(alloc, line, number, &mut harness, &mut log, sink) {
                    Ok(()) => {}
                    Err(e) => return Err(e),
                }
                rest = behind;
                number += 1;
            }
        }
    }
    Ok(log)
}

// Runs what was read.
fn run_input<K: Sink>(alloc: Global, input: &[u8], sink: &mut K) -> Result<Log, RunError>
    requires { length input.now ≤ MAX_INPUT }
    ensures ran { IfOk result (λ log. Ran input.now log (K.held sink.old) (K.held sink.new) (K.faults sink.old) (K.faults sink.new)) }
    ensures ends { IfErr result (RunEnds input.now (K.held sink.old) (K.held sink.new) (K.faults sink.old) (K.faults sink.new)) }
{
    if input.is_empty() {
        return Ok(Log::new(alloc));
    }
    run_lines(alloc, input, sink)
}

fn run<S: Source, K: Sink>(alloc: Global, source: &mut S, sink: &mut K) -> Result<Log, RunError>
    ensures finished { IfOk result (Finished
        (record { left = S.left source.old; reads = S.faults source.old; held = K.held sink.old; writes = K.faults sink.old })
        (record { left = S.left source.new; reads = S.faults source.new; held = K.held sink.new; writes = K.faults sink.new })) }
    ensures ended { IfErr result (Ended
        (record { left = S.left source.old; reads = S.faults source.old; held = K.held sink.old; writes = K.faults sink.old })
        (record { left = S.left source.new; reads = S.faults source.new; held = K.held sink.new; writes = K.faults sink.new })) }
    ensures few { ReadsFew MAX_INPUT (S.left source.old) (S.left source.new) (S.calls source.old) (S.calls source.new) }
{
    let input = match read_all(alloc, source, MAX_INPUT) {
        Ok(input) => input,
        Err(e) => return Err(e),
    };
    let log = match run_input(alloc, input.as_slice(), sink) {
        Ok(log) => log,
        Err(e) => return Err(e),
    };
    match sink.flush() {
        Ok(()) => Ok(log),
        Err(_) => Err(RunError::WriteFault),
    }
}

/// Reads a whole run: the number of members on its first line, and an event on each later one. Each event happens, and its
/// line is written with its answer and what the driver then describes. It flushes at the end.
///
/// `Ok` carries the driver's log, which is empty where there is no input. `ReadFault` and `WriteFault` come only where the
/// source or the sink failed in this call, `Malformed(n)` where line n, counted from 1, is the first that spells nothing, and
/// `TooLong` past 131,072 bytes.
pub fn run_fleet<S: Source, K: Sink>(
    alloc: Global,
    source: &mut S,
    sink: &mut K,
) -> Result<Log, RunError>
    ensures finished { IfOk result (Finished
        (record { left = S.left source.old; reads = S.faults source.old; held = K.held sink.old; writes = K.faults sink.old })
        (record { left = S.left source.new; reads = S.faults source.new; held = K.held sink.new; writes = K.faults sink.new })) }
    ensures ended { IfErr result (Ended
        (record { left = S.left source.old; reads = S.faults source.old; held = K.held sink.old; writes = K.faults sink.old })
        (record { left = S.left source.new; reads = S.faults source.new; held = K.held sink.new; writes = K.faults sink.new })) }

    // The source is read at most once more than there are bytes, and at most 131,073 times.
    ensures few { ReadsFew MAX_INPUT (S.left source.old) (S.left source.new) (S.calls source.old) (S.calls source.new) }

    // A run is run to its end where nothing fails, unless memory runs out.
    ensures complete { (input : List ℕ) (n : ℕ) (events : List EventRecord) → S.left source.old ≡ Some input → length input ≤ MAX_INPUT → Begins input n events []
        → ¬ (Rose (S.faults source.old) (S.faults source.new)) → ¬ (Rose (K.faults sink.old) (K.faults sink.new))
        → MatchResult result (λ log. log ≡ log_in n (trial_of n events)) (λ e. e ≡ NoMemory) }

    // The first line that spells nothing is named where nothing fails, unless memory runs out.
    ensures malformed { (input : List ℕ) (number : ℕ) → S.left source.old ≡ Some input → length input ≤ MAX_INPUT → IsBadAt input number
        → ¬ (Rose (S.faults source.old) (S.faults source.new)) → ¬ (Rose (K.faults sink.old) (K.faults sink.new)) → EndsWith (Malformed number) result }

    // An input of more bytes is too long where the source does not fail, unless memory runs out.
    ensures too_long { (input : List ℕ) → S.left source.old ≡ Some input → MAX_INPUT < length input
        → ¬ (Rose (S.faults source.old) (S.faults source.new)) → EndsWith TooLong result }
{
    run(alloc, source, sink)
}

//! Runs of a script.

ghost use Rattle.std.specs.Prelude.{◌≡◌, ◌+◌, ◌≤◌, ◌<◌, [], ◌∷◌, ◌++◌, ℕ, List, IfOk, IfErr, MatchResult, length, Some};
ghost use Rattle.mdb_log.specs.declared.step.Step.{Step};
ghost use Rattle.mdb_base.specs.Outside.{Rose};
ghost use Rattle.mdb_lines.specs.Loops.{ReadsFew};
ghost use Rattle.mdb_lines.specs.declared.run_error.RunError.TheVariants.{OutOfMemory as NoMemory, Malformed, TooLong};
ghost use Rattle.mdb_driver_rules.specs.Lines.{steps_of};
ghost use Rattle.mdb_topology.specs.Driving.{Stands, IsTaken};
ghost use Rattle.mdb_runs.specs.Headline.{Headline};
ghost use Rattle.mdb_runs.specs.Runs.{StepRuns, LineRuns, Ran, RunEnds, Finished, Ended, EndsWith, IsBadAt, IsScript};

use mdb_base::{Sink, Source};
use mdb_lines::{
    LineError, MAX_INPUT, RunError, cut_line, read_all, read_line, write_all, write_entry,
};
use mdb_log::{Log, Step};
use mdb_topology::Driver;
use std::alloc::Global;

// Adds the entry of one step, and writes its text.
fn one_step<K: Sink>(
    alloc: Global,
    step: &Step,
    driver: &mut Driver,
    log: &mut Log,
    sink: &mut K,
) -> Result<(), RunError>
    requires stands { Stands driver.old log.old }
    requires taken { IsTaken log.old step.now }
    ensures stands { Stands driver.new log.new }
    ensures runs { StepRuns step.now log.old log.new (K.held sink.old) (K.held sink.new) (K.faults sink.old) (K.faults sink.new) result }
{
    driver.step(alloc, log, step)?;
    let mut text = Vec::new(alloc);
    match log.entries().last() {
        Some(entry) => write_entry(alloc, entry, &mut text)?,
        None => {}
    }
    match write_all(sink, text.as_slice()) {
        Ok(()) => Ok(()),
        Err(_) => Err(RunError::WriteFault),
    }
}

// Adds the entry of one line, and writes its text.
fn one_line<K: Sink>(
    alloc: Global,
    line: &[u8],
    number: u32,
    driver: &mut Driver,
    log: &mut Log,
    sink: &mut K,
) -> Result<(), RunError>
    requires stands { Stands driver.old log.old }
    requires number { number ≡ 1 + length log.old }
    ensures stands { Stands driver.new log.new }
    ensures runs { LineRuns number line.now log.old log.new (K.held sink.old) (K.held sink.new) (K.faults sink.old) (K.faults sink.new) result }
{
    let step = match read_line(alloc, line, number) {
        Ok(step) => step,
        Err(LineError::Bad) => return Err(RunError::Malformed(number)),
        Err(LineError::OutOfMemory) => return Err(RunError::OutOfMemory),
    };
    if !driver.may_come(&step) {
        drop(step);
        return Err(RunError::Malformed(number));
    }
    let answer = one_step(alloc, &step, driver, log, sink);
    drop(step);
    answer
}

// Runs the lines of an input.
fn run_lines<K: Sink>(alloc: Global, input: &[u8], sink: &mut K) -> Result<Log, RunError>
    requires { length input.now ≤ MAX_INPUT }
    ensures ran { IfOk result (λ log. Ran input.now log (K.held sink.old) (K.held sink.new) (K.faults sink.old) (K.faults sink.new)) }
    ensures ends { IfErr result (RunEnds input.now (K.held sink.old) (K.held sink.new) (K.faults sink.old) (K.faults sink.new)) }
{
    let mut log = Log::new(alloc);
    let mut driver = Driver::new();
    let mut rest = input;
    let mut number = 1u32;
    while !rest.is_empty() {
        match cut_line(rest) {
            None => return Err(RunError::Malformed(number)),
            Some((line, behind)) => {
                match one_line(alloc, line, number, &mut driver, &mut log, sink) {
                    Ok(()) => {}
                    Err(e) => return Err(e),
                }
                rest = behind;
                number += 1;
            }
        }
    }
    Ok(log)
}

fn run<S: Source, K: Sink>(alloc: Global, source: &mut S, sink: &mut K) -> Result<Log, RunError>
    ensures finished { IfOk result (Finished
        (record { left = S.left source.old; reads = S.faults source.old; calls = S.calls source.old; held = K.held sink.old; writes = K.faults sink.old })
        (record { left = S.left source.new; reads = S.faults source.new; calls = S.calls source.new; held = K.held sink.new; writes = K.faults sink.new })) }
    ensures ended { IfErr result (Ended
        (record { left = S.left source.old; reads = S.faults source.old; calls = S.calls source.old; held = K.held sink.old; writes = K.faults sink.old })
        (record { left = S.left source.new; reads = S.faults source.new; calls = S.calls source.new; held = K.held sink.new; writes = K.faults sink.new })) }
    ensures few { ReadsFew MAX_INPUT (S.left source.old) (S.left source.new) (S.calls source.old) (S.calls source.new) }
{
    let input = match read_all(alloc, source, MAX_INPUT) {
        Ok(input) => input,
        Err(e) => return Err(e),
    };
    let log = match run_lines(alloc, input.as_slice(), sink) {
        Ok(log) => log,
        Err(e) => return Err(e),
    };
    match sink.flush() {
        Ok(()) => Ok(log),
        Err(_) => Err(RunError::WriteFault),
    }
}

/// Reads a whole script, answers its lines one by one on seat 0, and writes the text of each entry. It flushes at the end.
///
/// `Ok` carries the log, of which `headline` says in one record what is promised. `ReadFault` and `WriteFault` come only where the source or the sink failed in this call,
/// `Malformed(n)` where line n, counted from 1, is the first that spells no step, and `TooLong` past 131,072 bytes.
pub fn run_script<S: Source, K: Sink>(
    alloc: Global,
    source: &mut S,
    sink: &mut K,
) -> Result<Log, RunError>
    ensures headline { IfOk result (Headline
        (record { left = S.left source.old; reads = S.faults source.old; calls = S.calls source.old; held = K.held sink.old; writes = K.faults sink.old })
        (record { left = S.left source.new; reads = S.faults source.new; calls = S.calls source.new; held = K.held sink.new; writes = K.faults sink.new })) }

    // What stands behind it: the log is that of the lines' steps, answer by answer, and a driver stands for it.
    ensures finished { IfOk result (Finished
        (record { left = S.left source.old; reads = S.faults source.old; calls = S.calls source.old; held = K.held sink.old; writes = K.faults sink.old })
        (record { left = S.left source.new; reads = S.faults source.new; calls = S.calls source.new; held = K.held sink.new; writes = K.faults sink.new })) }
    ensures ended { IfErr result (Ended
        (record { left = S.left source.old; reads = S.faults source.old; calls = S.calls source.old; held = K.held sink.old; writes = K.faults sink.old })
        (record { left = S.left source.new; reads = S.faults source.new; calls = S.calls source.new; held = K.held sink.new; writes = K.faults sink.new })) }

    // The source is read at most once more than there are bytes, and at most 131,073 times.
    ensures few { ReadsFew MAX_INPUT (S.left source.old) (S.left source.new) (S.calls source.old) (S.calls source.new) }

    // A script is run to its end where nothing fails, unless memory runs out.
    ensures complete { (input : List ℕ) (steps : List Step) → S.left source.old ≡ Some input → length input ≤ MAX_INPUT → IsScript input steps
        → ¬ (Rose (S.faults source.old) (S.faults source.new)) → ¬ (Rose (K.faults sink.old) (K.faults sink.new))
        → MatchResult result (λ log. steps_of log ≡ steps) (λ e. e ≡ NoMemory) }

    // The first line that spells no step is named where nothing fails, unless memory runs out.
    ensures malformed { (input : List ℕ) (number : ℕ) → S.left source.old ≡ Some input → length input ≤ MAX_INPUT → IsBadAt input number
        → ¬ (Rose (S.faults source.old) (S.faults source.new)) → ¬ (Rose (K.faults sink.old) (K.faults sink.new)) → EndsWith (Malformed number) result }

    // An input of more bytes is too long where the source does not fail, unless memory runs out.
    ensures too_long { (input : List ℕ) → S.left source.old ≡ Some input → MAX_INPUT < length input
        → ¬ (Rose (S.faults source.old) (S.faults source.new)) → EndsWith TooLong result }
{
    run(alloc, source, sink)
}

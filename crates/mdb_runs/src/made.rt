//! Runs of generated scripts.

ghost use Rattle.std.specs.Prelude.{◌≡◌, ◌≤◌, IfOk, IfErr, string_bytes};
ghost use Rattle.mdb_lines.specs.declared.run_error.RunError.TheVariants.{OutOfMemory as NoMemory};
ghost use Rattle.mdb_runs.specs.Made.{MadeRuns, summary_line};

use crate::run::run_script;
use mdb_base::{NullSink, PlainSource, Sink};
use mdb_generator::{Summary, make_script};
use mdb_lines::{RunError, write_all};
use std::alloc::Global;

// The summary of the log of the generated script of n rounds, with a newline.
fn summary_line(alloc: Global, n: u32) -> Result<String, RunError>
    requires some { 1 ≤ n }
    requires few { n ≤ 2000 }
    ensures text { IfOk result (λ text. string_bytes text ≡ summary_line n) }
    ensures cause { IfErr result (λ e. e ≡ NoMemory) }
{
    let script = make_script(alloc, n)?;
    let mut source = PlainSource::new(script);
    let mut nowhere = NullSink::new();
    let log = match run_script(alloc, &mut source, &mut nowhere) {
        Ok(log) => log,
        Err(e) => return Err(e),
    };
    let summary = Summary::of(log.entries());
    Ok(format!(in alloc; "{summary}\n")?)
}

/// Runs the generated script of n rounds, 1 to 2,000, and writes the summary of its log, flushed.
///
/// `OutOfMemory` comes before anything is written, `WriteFault` only where the sink failed in this call. There is no other error.
pub fn run_made<K: Sink>(alloc: Global, n: u32, sink: &mut K) -> Result<(), RunError>
    requires some { 1 ≤ n }
    requires few { n ≤ 2000 }
    ensures { MadeRuns n (K.held sink.old) (K.held sink.new) (K.faults sink.old) (K.faults sink.new) result }
{
    let line = match summary_line(alloc, n) {
        Ok(line) => line,
        Err(e) => return Err(e),
    };
    match write_all(sink, line.as_bytes()) {
        Ok(()) => match sink.flush() {
            Ok(()) => Ok(()),
            Err(_) => Err(RunError::WriteFault),
        },
        Err(_) => Err(RunError::WriteFault),
    }
}

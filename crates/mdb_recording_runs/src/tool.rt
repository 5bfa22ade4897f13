//! The tool: it reads a recording to its end and writes what it finds.

ghost use Rattle.std.specs.Prelude.{◌≡◌, ◌≤◌, ◌<◌, ℕ, List, length, map, Some};
ghost use Rattle.mdb_base.specs.Outside.{Rose};
ghost use Rattle.mdb_lines.specs.Status.{Tells};
ghost use Rattle.mdb_recordings.specs.declared.standard.Standard.{Standard as Standard_};
ghost use Rattle.mdb_recording_runs.specs.Report.{report};
ghost use Rattle.mdb_recording_runs.specs.Runs.{EndsWell, JudgeEnds, Runs, TextWritten, ToolEnds, standard_of, standard_of_year, usage, verdict_status};

use crate::text::judge;
use crate::verdict::Verdict;
use mdb_base::{Sink, Source};
use mdb_lines::{RunError, Status, end_with_error, read_all, tell_usage, write_all};
use mdb_recordings::Standard;
use std::alloc::Global;

/// The most bytes that a recording may have.
pub const MAX_RECORDING: u32 = 1_073_741_824;

const USAGE: &str = "usage: mdb_recorded [--cmap 2020|2021]\n";

// Writes a text, and flushes it.
fn put<K: Sink>(sink: &mut K, text: &[u8]) -> Result<(), RunError>
    ensures { TextWritten text.now (K.held sink.old) (K.held sink.new) (K.faults sink.old) (K.faults sink.new) result }
{
    match write_all(sink, text) {
        Ok(()) => match sink.flush() {
            Ok(()) => Ok(()),
            Err(_) => Err(RunError::WriteFault),
        },
        Err(_) => Err(RunError::WriteFault),
    }
}

fn verdict_status(verdict: Verdict) -> Status
    ensures { result ≡ verdict_status verdict }
{
    match verdict {
        Verdict::Kept => 0,
        Verdict::Broken => 7,
        Verdict::NothingJudged => 8,
    }
}

fn run<S: Source, K: Sink>(
    alloc: Global,
    standard: Standard,
    source: &mut S,
    sink: &mut K,
) -> Result<Status, RunError>
    ensures { Runs standard
        (record { left = S.left source.old; reads = S.faults source.old; held = K.held sink.old; writes = K.faults sink.old })
        (record { left = S.left source.new; reads = S.faults source.new; held = K.held sink.new; writes = K.faults sink.new }) result }
{
    let text = match read_all(alloc, source, MAX_RECORDING) {
        Ok(text) => text,
        Err(e) => return Err(e),
    };
    let report = judge(alloc, standard, text.as_slice())?;
    let status = verdict_status(report.verdict);
    match put(sink, report.text.as_bytes()) {
        Ok(()) => Ok(status),
        Err(e) => Err(e),
    }
}

fn standard_of_year(year: &str) -> Option<Standard>
    ensures { result ≡ standard_of_year year.now }
{
    if year == "2020" {
        Some(Standard::Of2020)
    } else if year == "2021" {
        Some(Standard::Of2021)
    } else {
        None
    }
}

// The standard that the words name.
fn standard_of(words: &[&str]) -> Option<Standard>
    ensures { result ≡ standard_of (map (λ w. w.now) words.now) }
{
    match words.split_first() {
        None => Some(Standard::Current),
        Some((flag, rest)) => match rest.split_first() {
            None => None,
            Some((year, more)) => {
                if more.is_empty() && *flag == "--cmap" {
                    standard_of_year(year)
                } else {
                    None
                }
            }
        },
    }
}

// Says how the tool is used, and answers the status of a usage.
fn refuse_words<E: Sink>(errors: &mut E) -> Status
    ensures status { result ≡ 2 }
    ensures told { Tells (record { held = E.held errors.old; faults = E.faults errors.old }) (record { held = E.held errors.new; faults = E.faults errors.new }) usage }
{
    tell_usage(errors, USAGE);
    2
}

// A recording, by this standard.
fn run_by<S: Source, K: Sink, E: Sink>(
    alloc: Global,
    standard: Standard,
    source: &mut S,
    sink: &mut K,
    errors: &mut E,
) -> Status
    ensures { JudgeEnds standard
        (record { left = S.left source.old; reads = S.faults source.old; held = K.held sink.old; writes = K.faults sink.old })
        (record { left = S.left source.new; reads = S.faults source.new; held = K.held sink.new; writes = K.faults sink.new })
        (record { held = E.held errors.old; faults = E.faults errors.old }) (record { held = E.held errors.new; faults = E.faults errors.new }) result }
{
    match run(alloc, standard, source, sink) {
        Ok(status) => status,
        Err(e) => end_with_error(errors, e),
    }
}

/// Reads a recording on `source`, writes what it finds on `sink`, and answers the status: 0 where events were judged and nothing
/// is found, 7 where something is, 8 where no line tells an event that is judged, 1 for lack of memory, 3 for a read error, 4 for
/// a write error, 6 for a recording that is too long. The words are none, or `--cmap` and a year, 2020 or 2021, by whose standard it is judged; others are a usage, status 2, at which
/// nothing is read or written. What ended the run goes to `errors`.
pub fn run_recorded<S: Source, K: Sink, E: Sink>(
    alloc: Global,
    words: &[&str],
    source: &mut S,
    sink: &mut K,
    errors: &mut E,
) -> Status
    ensures ends { ToolEnds (standard_of (map (λ w. w.now) words.now))
        (record { left = S.left source.old; reads = S.faults source.old; held = K.held sink.old; writes = K.faults sink.old })
        (record { left = S.left source.new; reads = S.faults source.new; held = K.held sink.new; writes = K.faults sink.new })
        (record { held = E.held errors.old; faults = E.faults errors.old }) (record { held = E.held errors.new; faults = E.faults errors.new }) result }

    // A recording on the source is judged where nothing fails, unless memory runs out.
    ensures complete { (standard : Standard_) (text : List ℕ) → standard_of (map (λ w. w.now) words.now) ≡ Some standard → S.left source.old ≡ Some text → length text ≤ MAX_RECORDING
        → ¬ (Rose (S.faults source.old) (S.faults source.new)) → ¬ (Rose (K.faults sink.old) (K.faults sink.new)) → EndsWell result }
{
    match standard_of(words) {
        Some(standard) => run_by(alloc, standard, source, sink, errors),
        None => refuse_words(errors),
    }
}

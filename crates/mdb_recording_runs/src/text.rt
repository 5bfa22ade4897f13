//! What is told of a whole recording.

ghost use Rattle.std.specs.Prelude.{◌≡◌, ◌+◌, ◌++◌, ◌<◌, List, ℕ, [], length, IfOk, OnOk, string_bytes, map};
ghost use Rattle.mdb_recording_runs.specs.Cutting.{CutsFirst};
ghost use Rattle.mdb_lines.specs.Script.{lines_of};
ghost use Rattle.mdb_recordings.specs.Standing.{Stands};
ghost use Rattle.mdb_recordings.specs.declared.event.Recorded.{Recorded};
ghost use Rattle.mdb_recordings.specs.declared.standard.Standard.{Standard as Standard_};
ghost use Rattle.mdb_recording_runs.specs.Keeping.{Ends, Keeps};
ghost use Rattle.mdb_recording_runs.specs.Report.{Read, broken_line, check_outs_text, connections_text, counts_line, ends_text, kept_line, left_text, lines_text, nothing, nothing_line, passed_text, pool_line, pools_text, read_of, report, verdict_of};

use crate::reader::Reader;
use crate::verdict::Verdict;
use json::Scratch;
use mdb_base::OutOfMemory;
use mdb_lines::cut_line;
use mdb_recordings::{Facts, Former, Judge, Standard};
use std::alloc::Global;

/// What is told of a recording, and what is found of it.
#[derive(Drop)]
pub struct Report {
    pub text: String,
    pub verdict: Verdict,
}

fn next(read: u64) -> Result<u64, OutOfMemory>
    ensures { IfOk result (λ n. n ≡ read + 1) }
{
    match read.checked_add(1) {
        Some(number) => Ok(number),
        None => Err(OutOfMemory),
    }
}

// The first line of a text, without its newline, and what stands behind it.
fn first_line(text: &[u8]) -> (&[u8], &[u8])
    requires { 0 < length text.now }
    ensures { CutsFirst text.now result.0.now result.1.now }
{
    match cut_line(text) {
        None => (text, &[]),
        Some((line, behind)) => (line, behind),
    }
}

// The lines, of which none was taken so far.
fn take_lines(alloc: Global, reader: &mut Reader, text: &[u8]) -> Result<(), OutOfMemory>
    ensures { OnOk result ((standard : Standard_) → Keeps standard nothing [] reader.old → Keeps standard (read_of standard text.now) (lines_text standard 1 nothing (lines_of text.now)) reader.new) }
{
    let mut scratch = Scratch::new(alloc);
    let mut rest = text;
    let mut read = 0u64;
    while !rest.is_empty() {
        let number = next(read)?;
        let cut = first_line(rest);
        reader.take(&mut scratch, number, cut.0)?;
        rest = cut.1;
        read = number;
    }
    Ok(())
}

fn connections_text(alloc: Global, f: &Facts) -> Result<String, OutOfMemory>
    ensures { IfOk result (λ s. string_bytes s ≡ connections_text f.now) }
{
    let (created, ready, closed) = (f.created, f.readied, f.closed);
    Ok(format!(in alloc; " created={created} ready={ready} closed={closed}")?)
}

fn check_outs_text(alloc: Global, f: &Facts) -> Result<String, OutOfMemory>
    ensures { IfOk result (λ s. string_bytes s ≡ check_outs_text f.now) }
{
    let (started, outs, ins) = (f.started, f.outs, f.ins);
    Ok(format!(in alloc; " started={started} out={outs} in={ins}")?)
}

fn ends_text(alloc: Global, f: &Facts) -> Result<String, OutOfMemory>
    ensures { IfOk result (λ s. string_bytes s ≡ ends_text f.now) }
{
    let (failed, cleared) = (f.failed, f.clears);
    Ok(format!(in alloc; " failed={failed} cleared={cleared}")?)
}

fn left_text(alloc: Global, former: &Former) -> Result<String, OutOfMemory>
    ensures { IfOk result (λ s. string_bytes s ≡ left_text former.now) }
{
    let left = former.left;
    Ok(format!(in alloc; " left={left}")?)
}

fn pool_line(
    alloc: Global,
    address: &str,
    f: &Facts,
    former: &Former,
) -> Result<String, OutOfMemory>
    ensures { IfOk result (λ s. string_bytes s ≡ pool_line address.now f.now former.now) }
{
    let connections = connections_text(alloc, f)?;
    let outs = check_outs_text(alloc, f)?;
    let ends = ends_text(alloc, f)?;
    let left = left_text(alloc, former)?;
    Ok(format!(in alloc; "pool {address}{connections}{outs}{ends}{left}\n")?)
}

fn next_pool(pool: u32) -> Result<u32, OutOfMemory>
    ensures { IfOk result (λ n. n ≡ pool + 1) }
{
    match pool.checked_add(1) {
        Some(number) => Ok(number),
        None => Err(OutOfMemory),
    }
}

// The line of each pool.
fn tell_pools(
    alloc: Global,
    out: &mut String,
    names: &[String],
    judge: &Judge,
) -> Result<(), OutOfMemory>
    ensures { OnOk result ((h : List Recorded) → Stands h judge.now → string_bytes out.new ≡ string_bytes out.old ++ pools_text h 0 (map string_bytes names.now)) }
{
    let mut pool = 0u32;
    let mut rest = names;
    while let Some((name, more)) = rest.split_first() {
        let facts = judge.facts(pool);
        let former = judge.former(pool);
        let line = pool_line(alloc, name.as_str(), &facts, &former)?;
        out.push_str(line.as_str())?;
        pool = next_pool(pool)?;
        rest = more;
    }
    Ok(())
}

fn passed_text(alloc: Global, passed_over: u64) -> Result<String, OutOfMemory>
    ensures { IfOk result (λ t. string_bytes t ≡ passed_text passed_over) }
{
    Ok(format!(in alloc; " passed_over={passed_over}\n")?)
}

fn kept_line(alloc: Global, events: u64, passed_over: u64) -> Result<String, OutOfMemory>
    ensures { IfOk result (λ t. string_bytes t ≡ kept_line events passed_over) }
{
    let passed = passed_text(alloc, passed_over)?;
    Ok(format!(in alloc; "clean events={events}{passed}")?)
}

fn broken_line(alloc: Global, reader: &Reader) -> Result<String, OutOfMemory>
    ensures { IfOk result (λ t. string_bytes t ≡ broken_line reader.now.findings reader.now.malformed reader.now.events reader.now.passed_over) }
{
    let (findings, malformed, events) = (reader.findings, reader.malformed, reader.events);
    let passed = passed_text(alloc, reader.passed_over)?;
    Ok(format!(in alloc; "findings={findings} malformed={malformed} events={events}{passed}")?)
}

fn nothing_line(alloc: Global, passed_over: u64) -> Result<String, OutOfMemory>
    ensures { IfOk result (λ t. string_bytes t ≡ nothing_line passed_over) }
{
    let passed = passed_text(alloc, passed_over)?;
    Ok(format!(in alloc; "nothing judged{passed}")?)
}

fn counts_line(alloc: Global, reader: &Reader) -> Result<String, OutOfMemory>
    ensures { IfOk result (λ t. string_bytes t ≡ counts_line reader.now.findings reader.now.malformed reader.now.events reader.now.passed_over) }
{
    match Verdict::by(reader.findings, reader.malformed, reader.events) {
        Verdict::Kept => kept_line(alloc, reader.events, reader.passed_over),
        Verdict::Broken => broken_line(alloc, reader),
        Verdict::NothingJudged => nothing_line(alloc, reader.passed_over),
    }
}

// All lines were read: the pools and the end.
fn tell_end(alloc: Global, reader: &mut Reader) -> Result<(), OutOfMemory>
    ensures { OnOk result ((standard : Standard_) (s : Read) (text : List ℕ) → Keeps standard s text reader.old → Ends s text reader.new) }
{
    tell_pools(
        alloc,
        &mut reader.out,
        reader.names.list.as_slice(),
        &reader.judge,
    )?;
    let line = counts_line(alloc, reader)?;
    reader.out.push_str(line.as_str())?;
    Ok(())
}

/// What is told of a recording, by the standard of that time.
pub fn judge(alloc: Global, standard: Standard, text: &[u8]) -> Result<Report, OutOfMemory>
    ensures text { IfOk result (λ r. string_bytes r.text ≡ report standard text.now) }
    ensures verdict { IfOk result (λ r. r.verdict ≡ verdict_of (read_of standard text.now)) }
{
    let mut reader = Reader::new(alloc, standard);
    take_lines(alloc, &mut reader, text)?;
    tell_end(alloc, &mut reader)?;
    let verdict = Verdict::by(reader.findings, reader.malformed, reader.events);
    let Reader { out, .. } = reader;
    Ok(Report { text: out, verdict })
}

//! Reading a line.

ghost use Rattle.std.specs.Prelude.{◌≡◌, true, IfOk, OnOk};
ghost use Rattle.mdb_log.specs.declared.step.Step.{Step};
ghost use Rattle.mdb_lines.specs.Grammar.{is_printable};
ghost use Rattle.mdb_lines.specs.Script.{Spells};
ghost use Rattle.mdb_parts.specs.Reading.{Gives};
ghost use Rattle.mdb_lines.specs.Forms.{ReadsKind, ReadsLine};

use crate::caller_lines::{claim, collect, expire, give_up, maintain, request, returned, warm};
use crate::connection_lines::established;
use crate::error_lines::{failed, met};
use crate::line_kind::{LineKind, kind_of};
use crate::line_text::write_line;
use crate::monitor_lines::{beat, beaten, hello, rtt};
use crate::open_line::opened;
use crate::pin_lines::{pin, replicate, take, unpin};
use crate::rules::{is_printable, keeps_place, keeps_rules};
use crate::topology_lines::{cluster_time, hosts, stop, unwant, want};
use crate::types::step_types;
use mdb_base::{OutOfMemory, cut};
use mdb_log::Step;
use mdb_parts::LineError;
use std::alloc::Global;

fn read_kind(alloc: Global, kind: LineKind, text: &str) -> Result<Step, LineError>
    ensures { ReadsKind kind text.now result }
{
    match kind {
        LineKind::Open => opened(alloc, text),
        LineKind::Request => request(alloc, text),
        LineKind::Warm => warm(alloc, text),
        LineKind::Collect => collect(text),
        LineKind::Claim => claim(text),
        LineKind::GiveUp => give_up(text),
        LineKind::Established => established(text),
        LineKind::Return => returned(text),
        LineKind::Pin => pin(text),
        LineKind::Replicate => replicate(text),
        LineKind::Take => take(text),
        LineKind::Unpin => unpin(text),
        LineKind::Maintain => maintain(alloc, text),
        LineKind::Expire => expire(alloc, text),
        LineKind::Failed => failed(alloc, text),
        LineKind::Error => met(alloc, text),
        LineKind::Hello => hello(alloc, text),
        LineKind::Beat => beat(alloc, text),
        LineKind::Beaten => beaten(alloc, text),
        LineKind::Rtt => rtt(alloc, text),
        LineKind::Hosts => hosts(alloc, text),
        LineKind::ClusterTime => cluster_time(text),
        LineKind::Want => want(text),
        LineKind::Unwant => unwant(text),
        LineKind::Stop => stop(text),
    }
}

fn read_text(alloc: Global, line: &str) -> Result<Step, LineError>
    ensures { ReadsLine line.now result }
{
    let (word, rest) = cut(line, ' ');
    match kind_of(word) {
        Some(kind) => read_kind(alloc, kind, rest),
        None => Err(LineError::Bad),
    }
}

// What a line spells, if it spells anything.
fn guess(alloc: Global, line: &[u8], number: u32) -> Result<Step, LineError>
    ensures printable { OnOk result (is_printable line.now ≡ true) }
    ensures only { (s : Step) → Spells number line.now s → Gives s result }
{
    if !is_printable(line) {
        return Err(LineError::Bad);
    }
    match str::from_utf8(line) {
        Ok(text) => read_text(alloc, text),
        Err(_) => Err(LineError::Bad),
    }
}

// Whether the line spells the step.
fn is_spelled(alloc: Global, step: &Step, line: &[u8], number: u32) -> Result<bool, OutOfMemory>
    requires printable { is_printable line.now ≡ true }
    ensures yes { IfOk result (λ spelled. spelled ≡ true → Spells number line.now step.now) }
    ensures no { IfOk result (λ spelled. Spells number line.now step.now → spelled ≡ true) }
{
    step_types(step);
    let keeps = keeps_rules(alloc, step)?;
    if !keeps || !keeps_place(step, number) {
        return Ok(false);
    }
    let spelled = write_line(alloc, step)?;
    Ok(spelled.as_bytes() == line)
}

/// The step that a line spells, given without its newline. The first line of a script has the number 1 and opens, and no
/// other. `Bad` where it spells none.
pub fn read_line(alloc: Global, line: &[u8], number: u32) -> Result<Step, LineError>
    // The line spells what is read.
    ensures found { IfOk result (Spells number line.now) }

    // What the line spells is read, unless memory ran out.
    ensures only { (s : Step) → Spells number line.now s → Gives s result }
{
    let found = guess(alloc, line, number)?;
    match is_spelled(alloc, &found, line, number) {
        Ok(true) => Ok(found),
        Ok(false) => {
            drop(found);
            Err(LineError::Bad)
        }
        Err(e) => {
            drop(found);
            Err(LineError::from(e))
        }
    }
}

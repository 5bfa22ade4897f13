//! Reading the lines of a run.

ghost use Rattle.std.specs.Prelude.{◌≡◌, ◌<◌, ◌≤◌, ◌^◌, ◌++◌, ℕ, IfOk, OnOk, codes, decimal, true};
ghost use Rattle.mdb_lines.specs.Grammar.{is_printable};
ghost use Rattle.mdb_parts.specs.Reading.{Gives};
ghost use Rattle.mdb_fleet_runs.specs.declared.event.Event.{Event as EventRecord};
ghost use Rattle.mdb_fleet_runs.specs.Events.{SpellsEvent, SpellsCount, event_text, count_text};
ghost use Rattle.mdb_fleet_runs.specs.EventForms.{act_of, ReadsEvent};

use crate::event::{Event, FleetAct};
use mdb_base::{Moment, OutOfMemory, cut};
use mdb_lines::is_printable;
use mdb_parts::LineError;
use mdb_parts::fields::u64_field;
use mdb_parts::words::{last, number32};
use std::alloc::Global;

// A moment and a number.
#[tactic(auto, using(mdb_parts::proofs::TextLemmas::follows))]
fn moment_and_number(text: &str) -> Result<(Moment, u32), LineError>
    ensures { (m n : ℕ) → m < 2 ^ 64 → n < 2 ^ 32 → text.now ≡ codes " " ++ (decimal m ++ (codes " " ++ decimal n)) → Gives (m, n) result }
{
    let (moment, rest) = u64_field(text, " ")?;
    let word = last(rest, " ")?;
    let number = number32(word).ok_or(LineError::Bad)?;
    Ok((moment, number))
}

// The act that a word names, of a member or a reply.
#[tactic(auto, unfolding(crate::specs::EventForms::act_of))]
fn act_of(word: &str, number: u32) -> Option<FleetAct>
    ensures { result ≡ act_of word.now number }
{
    if word == "elect" {
        Some(FleetAct::Elect(number))
    } else if word == "down" {
        Some(FleetAct::StepDown(number))
    } else if word == "reconf" {
        Some(FleetAct::Reconf(number))
    } else if word == "ask" {
        Some(FleetAct::Ask(number))
    } else if word == "deliver" {
        Some(FleetAct::Deliver(number))
    } else if word == "lose" {
        Some(FleetAct::Lose(number))
    } else {
        None
    }
}

fn read_text(line: &str) -> Result<Event, LineError>
    ensures { ReadsEvent line.now result }
{
    let (word, rest) = cut(line, ' ');
    let (moment, number) = moment_and_number(rest)?;
    match act_of(word, number) {
        Some(act) => Ok(Event { moment, act }),
        None => Err(LineError::Bad),
    }
}

// What a line spells, if it spells anything.
fn guess(line: &[u8]) -> Result<Event, LineError>
    ensures printable { OnOk result (is_printable line.now ≡ true) }
    ensures only { (e : EventRecord) → SpellsEvent line.now e → Gives e result }
{
    if !is_printable(line) {
        return Err(LineError::Bad);
    }
    match str::from_utf8(line) {
        Ok(text) => read_text(text),
        Err(_) => Err(LineError::Bad),
    }
}

fn is_spelled(alloc: Global, event: Event, line: &[u8]) -> Result<bool, OutOfMemory>
    requires { is_printable line.now ≡ true }
    ensures yes { IfOk result (λ spelled. spelled ≡ true → SpellsEvent line.now event) }
    ensures no { IfOk result (λ spelled. SpellsEvent line.now event → spelled ≡ true) }
{
    let spelled = format!(in alloc; "{event}")?;
    Ok(spelled.as_bytes() == line)
}

/// The event that a line spells, given without its newline. `Bad` where it spells none.
pub fn read_event(alloc: Global, line: &[u8]) -> Result<Event, LineError>
    // The line spells what is read.
    ensures found { IfOk result (SpellsEvent line.now) }

    // What the line spells is read, unless memory ran out.
    ensures only { (e : EventRecord) → SpellsEvent line.now e → Gives e result }
{
    let event = guess(line)?;
    if is_spelled(alloc, event, line)? {
        Ok(event)
    } else {
        Err(LineError::Bad)
    }
}

fn guess_count(line: &[u8]) -> Result<u32, LineError>
    ensures printable { OnOk result (is_printable line.now ≡ true) }
    ensures only { (n : ℕ) → SpellsCount line.now n → Gives n result }
{
    if !is_printable(line) {
        return Err(LineError::Bad);
    }
    match str::from_utf8(line) {
        Ok(text) => number32(last(text, "fleet ")?).ok_or(LineError::Bad),
        Err(_) => Err(LineError::Bad),
    }
}

/// The number of members that a first line spells, given without its newline. `Bad` where it spells none of 1 to 50.
pub fn read_count(alloc: Global, line: &[u8]) -> Result<u32, LineError>
    // The line spells what is read.
    ensures found { IfOk result (SpellsCount line.now) }

    // What the line spells is read, unless memory ran out.
    ensures only { (n : ℕ) → SpellsCount line.now n → Gives n result }
{
    let count = guess_count(line)?;
    let spelled = format!(in alloc; "fleet {count}")?;
    if 1 <= count && count <= 50 && spelled.as_bytes() == line {
        Ok(count)
    } else {
        Err(LineError::Bad)
    }
}

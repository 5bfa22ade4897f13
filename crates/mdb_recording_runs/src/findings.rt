//! The findings of one event of a pool.

ghost use Rattle.std.specs.Prelude.{◌≡◌, ◌+◌, ◌++◌, List, IfOk, if◌then◌else◌, string_bytes, ◌∷◌, []};
ghost use Rattle.mdb_recordings.specs.declared.event.Recorded.{Recorded as Event_};
ghost use Rattle.mdb_recordings.specs.Rules.{against, breaks, glance_of};
ghost use Rattle.mdb_recording_runs.specs.Keeping.{TellsRules};
ghost use Rattle.mdb_recording_runs.specs.Report.{against_text, finding_line, id_text, section_text};
ghost use Rattle.mdb_recording_runs.specs.RuleWords.{all_rules};

use crate::rule_words::{all_rules, rule_section, rule_word};
use mdb_base::OutOfMemory;
use mdb_recordings::{Glance, Recorded, Rule, Standard, against, breaks};
use std::alloc::Global;

/// Where findings are told of: the address of the event's pool, the event, and what is known before it.
#[derive(Clone, Copy)]
pub struct EventContext<'a> {
    pub standard: Standard,
    pub address: &'a str,
    pub recorded: &'a Recorded,
    pub known: &'a Glance,
}

fn id_text(alloc: Global, id: Option<u64>) -> Result<String, OutOfMemory>
    ensures { IfOk result (λ s. string_bytes s ≡ id_text id) }
{
    match id {
        None => Ok(String::new(alloc)),
        Some(id) => Ok(format!(in alloc; " connection={id}")?),
    }
}

/// The section of the standard, to the end of the line.
pub fn section_text(alloc: Global, section: &str) -> Result<String, OutOfMemory>
    ensures { IfOk result (λ s. string_bytes s ≡ section_text section.now) }
{
    Ok(format!(in alloc; " section={section}\n")?)
}

/// The line of the event that a finding contradicts, if there is one.
#[tactic(auto, unfolding(crate::specs::Report::against_text))]
pub fn against_text(alloc: Global, line: Option<u64>) -> Result<String, OutOfMemory>
    ensures { IfOk result (λ s. string_bytes s ≡ against_text line) }
{
    match line {
        None => Ok(String::new(alloc)),
        Some(line) => Ok(format!(in alloc; " against={line}")?),
    }
}

fn finding_line(
    alloc: Global,
    address: &str,
    recorded: &Recorded,
    rule: Rule,
    other: Option<u64>,
) -> Result<String, OutOfMemory>
    ensures { IfOk result (λ s. string_bytes s ≡ finding_line address.now recorded.now rule other) }
{
    let number = recorded.line;
    let word = rule_word(rule);
    let id = id_text(alloc, recorded.event.told.id())?;
    let against = against_text(alloc, other)?;
    let section = section_text(alloc, rule_section(rule))?;
    Ok(format!(in alloc; "event {number}: {word} pool={address}{id}{against}{section}")?)
}

// Tells of one rule, if the event breaks it, and answers how many findings that is.
fn tell_rule(
    alloc: Global,
    out: &mut String,
    place: &EventContext<'_>,
    rule: Rule,
) -> Result<u64, OutOfMemory>
    ensures { IfOk result (λ n. (h : List Event_) → place.now.known.now ≡ glance_of h place.now.recorded.now
        → TellsRules (λ r. breaks place.now.standard r h place.now.recorded.now) (λ r. finding_line place.now.address.now place.now.recorded.now r (against r h place.now.recorded.now)) (rule ∷ []) (string_bytes out.old) (string_bytes out.new) n) }
{
    if breaks(place.standard, rule, place.known, place.recorded) {
        let other = against(rule, place.known, place.recorded);
        let line = finding_line(alloc, place.address, place.recorded, rule, other)?;
        out.push_str(line.as_str())?;
        Ok(1)
    } else {
        Ok(0)
    }
}

pub fn sum(count: u64, more: u64) -> Result<u64, OutOfMemory>
    ensures { IfOk result (λ n. n ≡ count + more) }
{
    match count.checked_add(more) {
        Some(sum) => Ok(sum),
        None => Err(OutOfMemory),
    }
}

/// Tells of each rule that the event breaks, and answers how many these are.
pub fn tell_findings(
    alloc: Global,
    out: &mut String,
    place: &EventContext<'_>,
) -> Result<u64, OutOfMemory>
    ensures { IfOk result (λ n. (h : List Event_) → place.now.known.now ≡ glance_of h place.now.recorded.now
        → TellsRules (λ r. breaks place.now.standard r h place.now.recorded.now) (λ r. finding_line place.now.address.now place.now.recorded.now r (against r h place.now.recorded.now)) all_rules (string_bytes out.old) (string_bytes out.new) n) }
{
    let mut found = 0u64;
    let mut rest = all_rules();
    while let Some((rule, more)) = rest.split_first() {
        let one = tell_rule(alloc, out, place, *rule)?;
        let next = sum(found, one)?;
        found = next;
        rest = more;
    }
    Ok(found)
}

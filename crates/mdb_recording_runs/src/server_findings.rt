//! The findings of one event of a server, or of the topology.

ghost use Rattle.std.specs.Prelude.{◌≡◌, ◌++◌, List, IfOk, ◌∷◌, [], option_map, string_bytes};
ghost use Rattle.mdb_recording_servers.specs.declared.event.Seen.{Seen as Seen_};
ghost use Rattle.mdb_recording_servers.specs.ServerRules.{against, breaks, known_of};
ghost use Rattle.mdb_recording_runs.specs.Keeping.{TellsRules};
ghost use Rattle.mdb_recording_runs.specs.Report.{server_finding_line, server_text};
ghost use Rattle.mdb_recording_runs.specs.RuleWords.{all_server_rules};

use crate::findings::{against_text, section_text, sum};
use crate::rule_words::{all_server_rules, server_rule_section, server_rule_word};
use mdb_base::OutOfMemory;
use mdb_recording_servers::{Known, Seen, ServerRule, against, breaks};
use std::alloc::Global;

/// Where findings are told of: the address of the event's server, if it names one, the event, and what is known before it.
#[derive(Clone, Copy)]
pub struct ServerEventContext<'a> {
    pub address: Option<&'a str>,
    pub seen: &'a Seen,
    pub known: &'a Known,
}

fn server_text(alloc: Global, address: Option<&str>) -> Result<String, OutOfMemory>
    ensures { IfOk result (λ s. string_bytes s ≡ server_text (option_map (λ a. a.now) address.entry)) }
{
    match address {
        None => Ok(String::new(alloc)),
        Some(address) => Ok(format!(in alloc; " server={address}")?),
    }
}

fn server_finding_line(
    alloc: Global,
    address: Option<&str>,
    seen: &Seen,
    rule: ServerRule,
    other: Option<u64>,
) -> Result<String, OutOfMemory>
    ensures { IfOk result (λ s. string_bytes s ≡ server_finding_line (option_map (λ a. a.now) address.entry) seen.now rule other) }
{
    let number = seen.line;
    let word = server_rule_word(rule);
    let server = server_text(alloc, address)?;
    let against = against_text(alloc, other)?;
    let section = section_text(alloc, server_rule_section(rule))?;
    Ok(format!(in alloc; "event {number}: {word}{server}{against}{section}")?)
}

// Tells of one rule, if the event breaks it, and answers how many findings that is.
fn tell_server_rule(
    alloc: Global,
    out: &mut String,
    place: &ServerEventContext<'_>,
    rule: ServerRule,
) -> Result<u64, OutOfMemory>
    ensures { IfOk result (λ n. (h : List Seen_) → place.now.known.now ≡ known_of h place.now.seen.now.event
        → TellsRules (λ r. breaks r h place.now.seen.now.event) (λ r. server_finding_line (option_map (λ a. a.now) place.now.address) place.now.seen.now r (against r h place.now.seen.now.event)) (rule ∷ []) (string_bytes out.old) (string_bytes out.new) n) }
{
    if breaks(rule, place.known, &place.seen.event) {
        let other = against(rule, place.known, &place.seen.event);
        let line = server_finding_line(alloc, place.address, place.seen, rule, other)?;
        out.push_str(line.as_str())?;
        Ok(1)
    } else {
        Ok(0)
    }
}

/// Tells of each rule that the event breaks, and answers how many these are.
pub fn tell_server_findings(
    alloc: Global,
    out: &mut String,
    place: &ServerEventContext<'_>,
) -> Result<u64, OutOfMemory>
    ensures { IfOk result (λ n. (h : List Seen_) → place.now.known.now ≡ known_of h place.now.seen.now.event
        → TellsRules (λ r. breaks r h place.now.seen.now.event) (λ r. server_finding_line (option_map (λ a. a.now) place.now.address) place.now.seen.now r (against r h place.now.seen.now.event)) all_server_rules (string_bytes out.old) (string_bytes out.new) n) }
{
    let mut found = 0u64;
    let mut rest = all_server_rules();
    while let Some((rule, more)) = rest.split_first() {
        let one = tell_server_rule(alloc, out, place, *rule)?;
        let next = sum(found, one)?;
        found = next;
        rest = more;
    }
    Ok(found)
}

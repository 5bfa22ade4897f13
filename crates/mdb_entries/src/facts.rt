//! Reading a fact.

ghost use Rattle.std.specs.Prelude.{◌≡◌, IfOk};
ghost use Rattle.mdb_entries.specs.declared.shown.ShownFact.{ShownFact};
ghost use Rattle.mdb_entries.specs.Facts.{shown_fact, IsFact};
ghost use Rattle.mdb_entries.specs.FactForms.{ReadsOpened, ReadsPool, ReadsGranted, ReadsEnded, ReadsRaised, ReadsSdam, ReadsCheckNow, ReadsCancel, ReadsFact, ReadsNamed};
ghost use Rattle.mdb_parts.specs.Reading.{Gives};

use crate::fact_kind::{FactKind, fact_kind};
use crate::fact_rules::is_shown_fact;
use crate::places::place;
use crate::shown::ShownFact;
use mdb_base::cut;
use mdb_event_reading::{read_end, read_event, service_or_dash};
use mdb_parts::fields::u32_field;
use mdb_parts::texts::text;
use mdb_parts::values::address_word;
use mdb_parts::words::{field, last};
use mdb_parts::{LineError, error};
use std::alloc::Global;

#[tactic(auto, using(mdb_parts::proofs::TextLemmas::follows))]
fn opened(alloc: Global, line: &str) -> Result<ShownFact, LineError>
    ensures { ReadsOpened line.now result }
{
    let (pool, rest) = u32_field(line, " ")?;
    let word = last(rest, " ")?;
    let address = address_word(alloc, word)?;
    Ok(ShownFact::Opened(pool, address))
}

#[tactic(auto, using(mdb_parts::proofs::TextLemmas::follows))]
fn pool(alloc: Global, line: &str) -> Result<ShownFact, LineError>
    ensures { ReadsPool line.now result }
{
    let (pool, rest) = u32_field(line, " ")?;
    let word = last(rest, " ")?;
    let event = read_event(alloc, word)?;
    Ok(ShownFact::Pool(pool, event))
}

#[tactic(auto, using(mdb_parts::proofs::TextLemmas::follows))]
fn granted(line: &str) -> Result<ShownFact, LineError>
    ensures { ReadsGranted line.now result }
{
    let (party, rest) = u32_field(line, " ")?;
    let (pool, id) = place(rest)?;
    Ok(ShownFact::Granted(party, pool, id))
}

#[tactic(auto, using(mdb_parts::proofs::TextLemmas::follows))]
fn ended(alloc: Global, line: &str) -> Result<ShownFact, LineError>
    ensures { ReadsEnded line.now result }
{
    let (request, rest) = u32_field(line, " ")?;
    let word = last(rest, " ")?;
    let end = read_end(alloc, word)?;
    Ok(ShownFact::Ended(request, end))
}

#[tactic(auto, using(mdb_parts::proofs::TextLemmas::follows, mdb_event_reading::proofs::DashLemmas::service_lacks))]
fn raised(alloc: Global, line: &str) -> Result<ShownFact, LineError>
    ensures { ReadsRaised line.now result }
{
    let (pool, rest) = u32_field(line, " ")?;
    let (word, rest) = field(rest, " ")?;
    let error = error(alloc, rest)?;
    Ok(ShownFact::Raised(pool, service_or_dash(word), error))
}

fn sdam(alloc: Global, line: &str) -> Result<ShownFact, LineError>
    ensures { ReadsSdam line.now result }
{
    let word = last(line, " ")?;
    let event = text(alloc, word)?;
    Ok(ShownFact::Sdam(event))
}

fn check_now(alloc: Global, line: &str) -> Result<ShownFact, LineError>
    ensures { ReadsCheckNow line.now result }
{
    let word = last(line, " ")?;
    let address = address_word(alloc, word)?;
    Ok(ShownFact::CheckNow(address))
}

fn cancel(alloc: Global, line: &str) -> Result<ShownFact, LineError>
    ensures { ReadsCancel line.now result }
{
    let word = last(line, " ")?;
    let address = address_word(alloc, word)?;
    Ok(ShownFact::Cancel(address))
}

fn read_kind(alloc: Global, kind: FactKind, line: &str) -> Result<ShownFact, LineError>
    ensures { ReadsFact kind line.now result }
{
    match kind {
        FactKind::Opened => opened(alloc, line),
        FactKind::Pool => pool(alloc, line),
        FactKind::Granted => granted(line),
        FactKind::Ended => ended(alloc, line),
        FactKind::Raised => raised(alloc, line),
        FactKind::Sdam => sdam(alloc, line),
        FactKind::CheckNow => check_now(alloc, line),
        FactKind::Cancel => cancel(alloc, line),
    }
}

fn read_named(alloc: Global, line: &str) -> Result<ShownFact, LineError>
    ensures { ReadsNamed line.now result }
{
    let (name, rest) = cut(line, ' ');
    match fact_kind(name) {
        Some(kind) => read_kind(alloc, kind, rest),
        None => Err(LineError::Bad),
    }
}

// The fact that a text spells, if it spells any.
fn guess(alloc: Global, line: &str) -> Result<ShownFact, LineError>
    ensures { (f : ShownFact) → IsFact f → line.now ≡ shown_fact f → Gives f result }
{
    read_named(alloc, line)
}

/// The fact that a text spells. It may take more than is spelled: what is read is compared with its text.
pub fn read_fact(alloc: Global, line: &str) -> Result<ShownFact, LineError>
    ensures found { IfOk result IsFact }
    ensures only { (f : ShownFact) → IsFact f → line.now ≡ shown_fact f → Gives f result }
{
    let fact = guess(alloc, line)?;
    match is_shown_fact(alloc, &fact) {
        Ok(true) => Ok(fact),
        Ok(false) => {
            drop(fact);
            Err(LineError::Bad)
        }
        Err(e) => {
            drop(fact);
            Err(LineError::from(e))
        }
    }
}

//! Reading the lines of callers and workers.

ghost use Rattle.mdb_log.specs.declared.step.Act.TheVariants as act;
ghost use Rattle.mdb_lines.specs.Forms.{ReadsMoment, ReadsParty, ReadsAsked, ReadsAddress, ReadsReturn};

use crate::shapes::{moment, moment_and_address, moment_and_party, party_at_address};
use crate::use_word::use_word;
use mdb_log::{Act, Step};
use mdb_parts::LineError;
use mdb_parts::fields::{u32_field, u64_field};
use mdb_parts::words::last;
use std::alloc::Global;

/// A request: a moment, a party and an address.
pub(crate) fn request(alloc: Global, text: &str) -> Result<Step, LineError>
    ensures { ReadsAsked (λ party a. act.Request party a) text.now result }
{
    let (moment, party, address) = party_at_address(alloc, text)?;
    let act = Act::Request(party, address);
    Ok(Step { moment, act })
}

/// A request that only fills the pool: a moment, its number and an address.
pub(crate) fn warm(alloc: Global, text: &str) -> Result<Step, LineError>
    ensures { ReadsAsked (λ party a. act.Warm party a) text.now result }
{
    let (moment, party, address) = party_at_address(alloc, text)?;
    let act = Act::Warm(party, address);
    Ok(Step { moment, act })
}

/// A caller asks how its request stands: a moment and the request.
pub(crate) fn collect(text: &str) -> Result<Step, LineError>
    ensures { ReadsParty (λ party. act.Collect party) text.now result }
{
    let (moment, party) = moment_and_party(text)?;
    let act = Act::Collect(party);
    Ok(Step { moment, act })
}

/// A worker asks for a connection to establish: a moment.
pub(crate) fn claim(text: &str) -> Result<Step, LineError>
    ensures { ReadsMoment act.Claim text.now result }
{
    let moment = moment(text)?;
    let act = Act::Claim;
    Ok(Step { moment, act })
}

/// A caller gives up: a moment and the request.
pub(crate) fn give_up(text: &str) -> Result<Step, LineError>
    ensures { ReadsParty (λ party. act.GiveUp party) text.now result }
{
    let (moment, party) = moment_and_party(text)?;
    let act = Act::GiveUp(party);
    Ok(Step { moment, act })
}

/// A return: a moment, a party and how the connection was used.
#[tactic(auto, using(mdb_parts::proofs::TextLemmas::follows))]
pub(crate) fn returned(text: &str) -> Result<Step, LineError>
    ensures { ReadsReturn text.now result }
{
    let (moment, rest) = u64_field(text, " ")?;
    let (party, rest) = u32_field(rest, " ")?;
    let word = last(rest, " ")?;
    let used = use_word(word)?;
    let act = Act::Return(party, used);
    Ok(Step { moment, act })
}

/// The maintenance of a pool: a moment and an address.
pub(crate) fn maintain(alloc: Global, text: &str) -> Result<Step, LineError>
    ensures { ReadsAddress (λ a. act.Maintain a) text.now result }
{
    let (moment, address) = moment_and_address(alloc, text)?;
    let act = Act::Maintain(address);
    Ok(Step { moment, act })
}

/// The end of the callers of a pool that waited too long: a moment and an address.
pub(crate) fn expire(alloc: Global, text: &str) -> Result<Step, LineError>
    ensures { ReadsAddress (λ a. act.Expire a) text.now result }
{
    let (moment, address) = moment_and_address(alloc, text)?;
    let act = Act::Expire(address);
    Ok(Step { moment, act })
}

//! Reading the lines of pins.

ghost use Rattle.mdb_log.specs.declared.step.Act.TheVariants as act;
ghost use Rattle.mdb_lines.specs.Forms.{ReadsParty, ReadsPlace, ReadsTake};

use crate::shapes::{moment_and_party, moment_pool_and_connection};
use mdb_log::{Act, Step};
use mdb_parts::LineError;
use mdb_parts::fields::{u32_field, u64_field};
use mdb_parts::words::{last, number32};

/// A party pins its connection: a moment and the party.
pub(crate) fn pin(text: &str) -> Result<Step, LineError>
    ensures { ReadsParty (λ party. act.Pin party) text.now result }
{
    let (moment, party) = moment_and_party(text)?;
    let act = Act::Pin(party);
    Ok(Step { moment, act })
}

/// One more pin: a moment, the pool and the connection.
pub(crate) fn replicate(text: &str) -> Result<Step, LineError>
    ensures { ReadsPlace (λ p c. act.Replicate p c) text.now result }
{
    let (moment, pool, id) = moment_pool_and_connection(text)?;
    let act = Act::Replicate(pool, id);
    Ok(Step { moment, act })
}

/// A new party takes a pinned connection: a moment, the party, the pool and the connection.
#[tactic(auto, using(mdb_parts::proofs::TextLemmas::follows))]
pub(crate) fn take(text: &str) -> Result<Step, LineError>
    ensures { ReadsTake text.now result }
{
    let (moment, rest) = u64_field(text, " ")?;
    let (party, rest) = u32_field(rest, " ")?;
    let (pool, rest) = u32_field(rest, " ")?;
    let word = last(rest, " ")?;
    let id = number32(word).ok_or(LineError::Bad)?;
    let act = Act::Take(party, pool, id);
    Ok(Step { moment, act })
}

/// One pin less: a moment, the pool and the connection.
pub(crate) fn unpin(text: &str) -> Result<Step, LineError>
    ensures { ReadsPlace (λ p c. act.Unpin p c) text.now result }
{
    let (moment, pool, id) = moment_pool_and_connection(text)?;
    let act = Act::Unpin(pool, id);
    Ok(Step { moment, act })
}

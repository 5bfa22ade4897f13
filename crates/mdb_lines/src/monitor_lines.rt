//! Reading the lines of monitors.

ghost use Rattle.mdb_lines.specs.Forms.{ReadsHello, ReadsBeat, ReadsBeaten, ReadsRtt};

use crate::outcomes::{beaten_outcome, hello_outcome};
use mdb_log::{Act, Step};
use mdb_parts::LineError;
use mdb_parts::fields::{u32_field, u64_field};
use mdb_parts::values::address_word;
use mdb_parts::words::{field, last, number32, number64};
use std::alloc::Global;

/// What a hello came to: a moment, an address, the pool and the outcome.
#[tactic(auto, using(mdb_parts::proofs::TextLemmas::follows, mdb_parts::proofs::AddressLemmas::address_lacks, crate::proofs::OutcomeLemmas::hello_follows))]
pub(crate) fn hello(alloc: Global, text: &str) -> Result<Step, LineError>
    ensures { ReadsHello text.now result }
{
    let (moment, rest) = u64_field(text, " ")?;
    let (place, rest) = field(rest, " ")?;
    let (pool, rest) = u32_field(rest, " ")?;
    let came = hello_outcome(alloc, rest)?;
    let address = address_word(alloc, place)?;
    let act = Act::Hello(address, pool, came);
    Ok(Step { moment, act })
}

/// A check ended: a moment, an address, the pool, nanoseconds and the outcome.
#[tactic(auto, using(mdb_parts::proofs::TextLemmas::follows, mdb_parts::proofs::AddressLemmas::address_lacks, crate::proofs::OutcomeLemmas::beaten_follows))]
pub(crate) fn beaten(alloc: Global, text: &str) -> Result<Step, LineError>
    ensures { ReadsBeaten text.now result }
{
    let (moment, rest) = u64_field(text, " ")?;
    let (place, rest) = field(rest, " ")?;
    let (pool, rest) = u32_field(rest, " ")?;
    let (time, rest) = u64_field(rest, " ")?;
    let came = beaten_outcome(alloc, rest)?;
    let address = address_word(alloc, place)?;
    let act = Act::Beaten(address, pool, time, came);
    Ok(Step { moment, act })
}

/// A check begins: a moment, an address and the pool.
#[tactic(auto, using(mdb_parts::proofs::TextLemmas::follows, mdb_parts::proofs::AddressLemmas::address_lacks))]
pub(crate) fn beat(alloc: Global, text: &str) -> Result<Step, LineError>
    ensures { ReadsBeat text.now result }
{
    let (moment, rest) = u64_field(text, " ")?;
    let (place, rest) = field(rest, " ")?;
    let word = last(rest, " ")?;
    let pool = number32(word).ok_or(LineError::Bad)?;
    let address = address_word(alloc, place)?;
    let act = Act::Beat(address, pool);
    Ok(Step { moment, act })
}

/// A round trip was measured: a moment, an address, the pool and nanoseconds.
#[tactic(auto, using(mdb_parts::proofs::TextLemmas::follows, mdb_parts::proofs::AddressLemmas::address_lacks))]
pub(crate) fn rtt(alloc: Global, text: &str) -> Result<Step, LineError>
    ensures { ReadsRtt text.now result }
{
    let (moment, rest) = u64_field(text, " ")?;
    let (place, rest) = field(rest, " ")?;
    let (pool, rest) = u32_field(rest, " ")?;
    let word = last(rest, " ")?;
    let time = number64(word).ok_or(LineError::Bad)?;
    let address = address_word(alloc, place)?;
    let act = Act::Rtt(address, pool, time);
    Ok(Step { moment, act })
}

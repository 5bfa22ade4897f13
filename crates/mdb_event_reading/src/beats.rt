//! Reading the events that tell of checks.

ghost use Rattle.std.specs.Prelude.{◌≡◌, ◌<◌, ◌^◌, ◌++◌, List, ℕ, codes, decimal, true};
ghost use Rattle.mdb_base.specs.ErrorText.{error_text};
ghost use Rattle.mdb_base.specs.declared.error.Error.{Error};
ghost use Rattle.mdb_parts.specs.ErrorParts.{is_error, IsErrorOfTypes};
ghost use Rattle.mdb_event_reading.specs.declared.shown_sdam.ShownBeat.{ShownBeat};
ghost use Rattle.mdb_event_reading.specs.SdamTexts.{IsBeat};
ghost use Rattle.mdb_event_reading.specs.SdamForms.{beat_start, ReadsStarted, ReadsSucceeded, ReadsFailed};
ghost use Rattle.mdb_parts.specs.Reading.{Follows, Gives, GivesFirst};

use crate::dashes::truth;
use crate::shown_sdam::{ShownBeat, ShownSdam};
use crate::words::signed_or_dash;
use mdb_base::{Error, Nanos};
use mdb_parts::fields::{u32_field, u64_field};
use mdb_parts::values::address_word;
use mdb_parts::words::{field, last, number64};
use mdb_parts::{LineError, error};
use std::alloc::Global;

// The address and the numbers of a check, and what is left.
#[tactic(auto, using(crate::proofs::OfSdam::WordLemmas::words_lack, mdb_parts::proofs::TextLemmas::follows, mdb_parts::proofs::AddressLemmas::address_lacks))]
fn beat(alloc: Global, text: &str) -> Result<(ShownBeat, &str), LineError>
    ensures { (b : ShownBeat) (rest : List ℕ) → IsBeat b → Follows rest → text.now ≡ beat_start b rest → GivesFirst b rest result }
{
    let (place, rest) = field(text, " ")?;
    let (awaited, rest) = field(rest, " awaited=")?;
    let (driver, rest) = u32_field(rest, " driver=")?;
    let (server, rest) = field(rest, " server=")?;
    let address = address_word(alloc, place)?;
    let beat = ShownBeat {
        address,
        awaited: truth(awaited),
        driver,
        server: signed_or_dash(server),
    };
    Ok((beat, rest))
}

/// A check began.
pub fn started(alloc: Global, text: &str) -> Result<ShownSdam, LineError>
    ensures { ReadsStarted text.now result }
{
    let (beat, _rest) = beat(alloc, text)?;
    Ok(ShownSdam::Started(beat))
}

/// A check succeeded: it took so many nanoseconds.
pub fn succeeded(alloc: Global, text: &str) -> Result<ShownSdam, LineError>
    ensures { ReadsSucceeded text.now result }
{
    let (beat, rest) = beat(alloc, text)?;
    match duration(rest) {
        Ok(duration) => Ok(ShownSdam::Succeeded(beat, duration)),
        Err(e) => {
            drop(beat);
            Err(e)
        }
    }
}

/// A check failed: it took so many nanoseconds, and this is why.
pub fn failed(alloc: Global, text: &str) -> Result<ShownSdam, LineError>
    ensures { ReadsFailed text.now result }
{
    let (beat, rest) = beat(alloc, text)?;
    match failure(alloc, rest) {
        Ok((duration, error)) => Ok(ShownSdam::Failed(beat, duration, error)),
        Err(e) => {
            drop(beat);
            Err(e)
        }
    }
}

fn duration(text: &str) -> Result<Nanos, LineError>
    ensures { (n : ℕ) → n < 2 ^ 64 → text.now ≡ codes " duration=" ++ decimal n → Gives n result }
{
    let word = last(text, " duration=")?;
    number64(word).ok_or(LineError::Bad)
}

#[tactic(auto, using(mdb_parts::proofs::TextLemmas::follows))]
fn failure(alloc: Global, text: &str) -> Result<(Nanos, Error), LineError>
    ensures { (n : ℕ) (e : Error) → n < 2 ^ 64 → IsErrorOfTypes e → is_error e ≡ true → text.now ≡ codes " duration=" ++ (decimal n ++ (codes " " ++ error_text e)) → Gives (n, e) result }
{
    let (duration, rest) = u64_field(text, " duration=")?;
    let error = error(alloc, rest)?;
    Ok((duration, error))
}

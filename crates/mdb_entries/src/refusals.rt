//! Reading why a step was refused.

ghost use Rattle.std.specs.Prelude.{◌≡◌, ◌<◌, ◌^◌, ◌++◌, ℕ, codes, decimal};
ghost use Rattle.mdb_log.specs.declared.reply.What.{What};
ghost use Rattle.mdb_log.specs.declared.reply.Refused.{Refused};
ghost use Rattle.mdb_log.specs.declared.reply.Refused.TheVariants as refused;
ghost use Rattle.mdb_lines.specs.LogText.{what_text, refused_text};
ghost use Rattle.mdb_entries.specs.Replies.{plain_refusal, early_refusal, late_refusal, IsRefusedOfTypes, ReadsRefusal};
ghost use Rattle.mdb_parts.specs.Reading.{Gives};

use mdb_log::{Refused, What};
use mdb_parts::LineError;
use mdb_parts::words::{after, last, number64};

#[tactic(auto, unfolding(crate::specs::Replies::early_refusal))]
fn early_refusal(word: &str) -> Option<Refused>
    ensures { result ≡ early_refusal word.now }
{
    if word == "UnknownServer" {
        Some(Refused::UnknownServer)
    } else if word == "RequestKnown" {
        Some(Refused::RequestKnown)
    } else if word == "UnknownRequest" {
        Some(Refused::UnknownRequest)
    } else if word == "NotHolder" {
        Some(Refused::NotHolder)
    } else if word == "NotPending" {
        Some(Refused::NotPending)
    } else {
        None
    }
}

#[tactic(auto, unfolding(crate::specs::Replies::late_refusal))]
fn late_refusal(word: &str) -> Option<Refused>
    ensures { result ≡ late_refusal word.now }
{
    if word == "Unpinned" {
        Some(Refused::Unpinned)
    } else if word == "PinInUse" {
        Some(Refused::PinInUse)
    } else if word == "PinState" {
        Some(Refused::PinState)
    } else if word == "CheckRunning" {
        Some(Refused::CheckRunning)
    } else if word == "NotChecking" {
        Some(Refused::NotChecking)
    } else if word == "WrongMode" {
        Some(Refused::WrongMode)
    } else {
        None
    }
}

// A refusal that carries nothing.
#[tactic(auto, unfolding(crate::specs::Replies::plain_refusal))]
fn plain_refusal(word: &str) -> Option<Refused>
    ensures { result ≡ plain_refusal word.now }
{
    early_refusal(word).or(late_refusal(word))
}

fn what(word: &str) -> Result<What, LineError>
    ensures { (w : What) → word.now ≡ what_text w → Gives w result }
{
    if word == "pool" {
        Ok(What::Pool)
    } else if word == "generation" {
        Ok(What::Generation)
    } else if word == "monitor" {
        Ok(What::Monitor)
    } else if word == "servers" {
        Ok(What::Servers)
    } else {
        Err(LineError::Bad)
    }
}

fn exhausted(word: &str) -> Result<Refused, LineError>
    ensures { (w : What) → word.now ≡ codes "Exhausted " ++ what_text w → Gives (refused.Exhausted w) result }
{
    let rest = last(word, "Exhausted ")?;
    let what = what(rest)?;
    Ok(Refused::Exhausted(what))
}

fn time_back(digits: &str) -> Result<Refused, LineError>
    ensures { (m : ℕ) → m < 2 ^ 64 → digits.now ≡ decimal m → Gives (refused.TimeBack m) result }
{
    let moment = number64(digits).ok_or(LineError::Bad)?;
    Ok(Refused::TimeBack(moment))
}

// A refusal that carries a moment, or what ran out.
fn laden_refusal(word: &str) -> Result<Refused, LineError>
    ensures time { (m : ℕ) → m < 2 ^ 64 → word.now ≡ codes "TimeBack " ++ decimal m → Gives (refused.TimeBack m) result }
    ensures number { (w : What) → word.now ≡ codes "Exhausted " ++ what_text w → Gives (refused.Exhausted w) result }
{
    match after(word, "TimeBack ") {
        Some(digits) => time_back(digits),
        None => exhausted(word),
    }
}

fn read_refusal(word: &str) -> Result<Refused, LineError>
    ensures { ReadsRefusal word.now result }
{
    match plain_refusal(word) {
        Some(why) => Ok(why),
        None => laden_refusal(word),
    }
}

/// Why a step was refused.
pub fn refusal(word: &str) -> Result<Refused, LineError>
    ensures { (why : Refused) → IsRefusedOfTypes why → word.now ≡ refused_text why → Gives why result }
{
    read_refusal(word)
}

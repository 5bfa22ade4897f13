//! Why connections are closed, and why check-outs fail.

ghost use Rattle.std.specs.Prelude.{◌≡◌};
ghost use Rattle.json.specs.Value.{value_view};
ghost use Rattle.mdb_recording_lines.specs.EventNames.{close_reason, fail_reason};
ghost use Rattle.mdb_recording_lines.specs.LineForms.{close_reason_at, fail_reason_at};

use crate::fields::member;
use json::Value;
use mdb_recordings::{CloseReason, FailReason};

#[tactic(auto, unfolding(crate::specs::EventNames::close_reason))]
fn close_reason(word: &str) -> Option<CloseReason>
    ensures { result ≡ close_reason word.now }
{
    if word == "idle" {
        Some(CloseReason::Idle)
    } else if word == "stale" {
        Some(CloseReason::Stale)
    } else if word == "error" || word == "connectionError" {
        Some(CloseReason::Error)
    } else if word == "poolClosed" {
        Some(CloseReason::PoolClosed)
    } else {
        None
    }
}

#[tactic(auto, unfolding(crate::specs::EventNames::fail_reason))]
fn fail_reason(word: &str) -> Option<FailReason>
    ensures { result ≡ fail_reason word.now }
{
    if word == "timeout" {
        Some(FailReason::Timeout)
    } else if word == "connectionError" {
        Some(FailReason::ConnectionError)
    } else if word == "poolClosed" {
        Some(FailReason::PoolClosed)
    } else {
        None
    }
}

/// Why a connection was closed: nothing where `reason` is no word of the standard.
pub fn close_reason_at(object: &Value<'_>) -> Option<CloseReason>
    ensures { result ≡ close_reason_at (value_view object.now) }
{
    match member(object, "reason") {
        None => Some(CloseReason::Untold),
        Some(reason) => close_reason(reason.as_str()?),
    }
}

/// Why a check-out failed: nothing where `reason` is no word of the standard.
pub fn fail_reason_at(object: &Value<'_>) -> Option<FailReason>
    ensures { result ≡ fail_reason_at (value_view object.now) }
{
    match member(object, "reason") {
        None => Some(FailReason::Untold),
        Some(reason) => fail_reason(reason.as_str()?),
    }
}

//! Why connections are closed, and why checkouts fail, as words.

ghost use Rattle.std.specs.Prelude.{◌≡◌};
ghost use Rattle.mdb_events.specs.Words.{closed_word, failed_word};
ghost use Rattle.mdb_events.specs.declared.reasons.ConnectionClosedReason.{ConnectionClosedReason};
ghost use Rattle.mdb_events.specs.declared.reasons.ConnectionCheckoutFailedReason.{ConnectionCheckoutFailedReason};
ghost use Rattle.mdb_parts.specs.Reading.{Gives};

use mdb_events::{ConnectionCheckoutFailedReason, ConnectionClosedReason};
use mdb_parts::LineError;

/// Why a connection was closed.
pub fn closed_reason(word: &str) -> Result<ConnectionClosedReason, LineError>
    ensures { (reason : ConnectionClosedReason) → word.now ≡ closed_word reason → Gives reason result }
{
    if word == "Stale" {
        Ok(ConnectionClosedReason::Stale)
    } else if word == "Idle" {
        Ok(ConnectionClosedReason::Idle)
    } else if word == "Error" {
        Ok(ConnectionClosedReason::Error)
    } else if word == "Dropped" {
        Ok(ConnectionClosedReason::Dropped)
    } else if word == "PoolClosed" {
        Ok(ConnectionClosedReason::PoolClosed)
    } else {
        Err(LineError::Bad)
    }
}

/// Why a checkout failed.
pub fn failed_reason(word: &str) -> Result<ConnectionCheckoutFailedReason, LineError>
    ensures { (reason : ConnectionCheckoutFailedReason) → word.now ≡ failed_word reason → Gives reason result }
{
    if word == "Timeout" {
        Ok(ConnectionCheckoutFailedReason::Timeout)
    } else if word == "ConnectionError" {
        Ok(ConnectionCheckoutFailedReason::ConnectionError)
    } else {
        Err(LineError::Bad)
    }
}

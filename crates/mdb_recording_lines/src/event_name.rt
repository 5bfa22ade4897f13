//! Which event it is.

ghost use Rattle.std.specs.Prelude.{◌≡◌};
ghost use Rattle.mdb_recording_lines.specs.EventNames.{connection_event, event_named, pool_event};

/// The events of pools, by their names in CMAP.
#[derive(Clone, Copy, Debug)]
pub enum EventName {
    PoolCreated,
    PoolReady,
    PoolCleared,
    PoolClosed,
    ConnectionCreated,
    ConnectionReady,
    ConnectionClosed,
    CheckOutStarted,
    CheckOutFailed,
    CheckedOut,
    CheckedIn,
}

#[tactic(auto, unfolding(crate::specs::EventNames::pool_event))]
fn pool_event(word: &str) -> Option<EventName>
    ensures { result ≡ pool_event word.now }
{
    if word == "ConnectionPoolCreated" {
        Some(EventName::PoolCreated)
    } else if word == "ConnectionPoolReady" {
        Some(EventName::PoolReady)
    } else if word == "ConnectionPoolCleared" {
        Some(EventName::PoolCleared)
    } else if word == "ConnectionPoolClosed" {
        Some(EventName::PoolClosed)
    } else {
        None
    }
}

#[tactic(auto, unfolding(crate::specs::EventNames::connection_event))]
fn connection_event(word: &str) -> Option<EventName>
    ensures { result ≡ connection_event word.now }
{
    if word == "ConnectionCreated" {
        Some(EventName::ConnectionCreated)
    } else if word == "ConnectionReady" {
        Some(EventName::ConnectionReady)
    } else if word == "ConnectionClosed" {
        Some(EventName::ConnectionClosed)
    } else if word == "ConnectionCheckOutStarted" {
        Some(EventName::CheckOutStarted)
    } else if word == "ConnectionCheckOutFailed" {
        Some(EventName::CheckOutFailed)
    } else if word == "ConnectionCheckedOut" {
        Some(EventName::CheckedOut)
    } else if word == "ConnectionCheckedIn" {
        Some(EventName::CheckedIn)
    } else {
        None
    }
}

/// The event of this name.
#[tactic(auto, unfolding(crate::specs::EventNames::event_named))]
pub fn event_named(word: &str) -> Option<EventName>
    ensures { result ≡ event_named word.now }
{
    connection_event(word).or(pool_event(word))
}

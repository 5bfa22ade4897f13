//! Which event of a pool it is.

ghost use Rattle.std.specs.Prelude.{◌≡◌};
ghost use Rattle.mdb_event_reading.specs.EventForms.{event_kind, pool_kind, connection_kind};

/// The events of pools, by their names.
#[derive(Clone, Copy, Debug, PartialEq, Eq)]
pub enum EventKind {
    PoolCreated,
    PoolReady,
    PoolCleared,
    PoolClosed,
    ConnectionCreated,
    ConnectionReady,
    ConnectionClosed,
    CheckoutStarted,
    CheckoutFailed,
    CheckedOut,
    CheckedIn,
}

#[tactic(auto, unfolding(crate::specs::EventForms::pool_kind))]
fn pool_kind(word: &str) -> Option<EventKind>
    ensures { result ≡ pool_kind word.now }
{
    if word == "PoolCreated" {
        Some(EventKind::PoolCreated)
    } else if word == "PoolReady" {
        Some(EventKind::PoolReady)
    } else if word == "PoolCleared" {
        Some(EventKind::PoolCleared)
    } else if word == "PoolClosed" {
        Some(EventKind::PoolClosed)
    } else {
        None
    }
}

#[tactic(auto, unfolding(crate::specs::EventForms::connection_kind))]
fn connection_kind(word: &str) -> Option<EventKind>
    ensures { result ≡ connection_kind word.now }
{
    if word == "ConnectionCreated" {
        Some(EventKind::ConnectionCreated)
    } else if word == "ConnectionReady" {
        Some(EventKind::ConnectionReady)
    } else if word == "ConnectionClosed" {
        Some(EventKind::ConnectionClosed)
    } else if word == "ConnectionCheckoutStarted" {
        Some(EventKind::CheckoutStarted)
    } else if word == "ConnectionCheckoutFailed" {
        Some(EventKind::CheckoutFailed)
    } else if word == "ConnectionCheckedOut" {
        Some(EventKind::CheckedOut)
    } else if word == "ConnectionCheckedIn" {
        Some(EventKind::CheckedIn)
    } else {
        None
    }
}

/// The event of this name.
#[tactic(auto, unfolding(crate::specs::EventForms::event_kind))]
pub fn event_kind(word: &str) -> Option<EventKind>
    ensures { result ≡ event_kind word.now }
{
    pool_kind(word).or(connection_kind(word))
}

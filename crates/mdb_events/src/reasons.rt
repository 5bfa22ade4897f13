//! Why connections are closed, and why checkouts fail.

ghost use Rattle.std.specs.Prelude.{◌≡◌};
ghost use Rattle.mdb_events.specs.Words.{closed_reason, failed_reason};

use std::fmt;

/// Why a connection was closed (CMAP, "ConnectionClosedEvent").
#[derive(Clone, Copy, Debug, PartialEq, Eq)]
pub enum ConnectionClosedReason {
    /// The pool was cleared after the connection was created.
    Stale,
    /// The connection was available for longer than the idle limit.
    Idle,
    /// The connection failed while it was established or used.
    Error,
    /// The connection came back in the middle of an operation.
    Dropped,
    /// The pool was closed.
    PoolClosed,
}

/// Why a checkout failed (CMAP, "ConnectionCheckOutFailedEvent").
#[derive(Clone, Copy, Debug, PartialEq, Eq)]
pub enum ConnectionCheckoutFailedReason {
    /// The caller waited for too long.
    Timeout,
    /// No connection could be established.
    ConnectionError,
}

impl fmt::Display for ConnectionClosedReason {
    ghost use Rattle.std.specs.Prelude.{Some};
    ghost use Rattle.mdb_events.specs.Words.{closed_word};

    ghost output = { λ r. Some (closed_word r) };

    fn fmt<W: fmt::Write>(&self, f: &mut fmt::Formatter<W>) -> fmt::Result {
        match self {
            ConnectionClosedReason::Stale => write!(f, "Stale"),
            ConnectionClosedReason::Idle => write!(f, "Idle"),
            ConnectionClosedReason::Error => write!(f, "Error"),
            ConnectionClosedReason::Dropped => write!(f, "Dropped"),
            ConnectionClosedReason::PoolClosed => write!(f, "PoolClosed"),
        }
    }
}

impl fmt::Display for ConnectionCheckoutFailedReason {
    ghost use Rattle.std.specs.Prelude.{Some};
    ghost use Rattle.mdb_events.specs.Words.{failed_word};

    ghost output = { λ r. Some (failed_word r) };

    fn fmt<W: fmt::Write>(&self, f: &mut fmt::Formatter<W>) -> fmt::Result {
        match self {
            ConnectionCheckoutFailedReason::Timeout => write!(f, "Timeout"),
            ConnectionCheckoutFailedReason::ConnectionError => write!(f, "ConnectionError"),
        }
    }
}

/// The reason in a sentence, as the upstream crate logs it.
pub fn closed_reason_text(reason: ConnectionClosedReason) -> &'static str
    ensures { result.now ≡ closed_reason reason }
{
    match reason {
        ConnectionClosedReason::Stale => { "Connection became stale because the pool was cleared" }
        ConnectionClosedReason::Idle => {
            "Connection has been available but unused for longer than the configured max idle time"
        }
        ConnectionClosedReason::Error => "An error occurred while using the connection",
        ConnectionClosedReason::Dropped => "Connection was dropped during an operation",
        ConnectionClosedReason::PoolClosed => "Connection pool was closed",
    }
}

/// The reason in a sentence, as the upstream crate logs it.
pub fn failed_reason_text(reason: ConnectionCheckoutFailedReason) -> &'static str
    ensures { result.now ≡ failed_reason reason }
{
    match reason {
        ConnectionCheckoutFailedReason::Timeout => {
            "Wait queue timeout elapsed without a connection becoming available"
        }
        ConnectionCheckoutFailedReason::ConnectionError => {
            "An error occurred while trying to establish a new connection"
        }
    }
}

//! What is known of one pool.

ghost use Rattle.std.specs.Prelude.{◌≡◌, ◌+◌, ◌-◌, IfOk, if◌then◌else◌};
ghost use Rattle.mdb_recordings.specs.Lives.{hands_out, live, waiting};
ghost use Rattle.mdb_recordings.specs.Steps.{facts_after, facts_after_connection, facts_state_after, facts_once_closed, is_lying, lying_without};

use crate::connection::Connection;
use crate::event::{CloseReason, Limits, Told};
use crate::pool_lines::PoolLines;
use mdb_base::OutOfMemory;

/// What the events of a pool tell of it, since it was created.
#[derive(Clone, Copy, Debug)]
pub struct Facts {
    pub limits: Limits,
    pub is_created: bool,
    pub is_ready: bool,
    pub is_closed: bool,
    /// Some connection was closed for an error.
    pub has_error: bool,
    /// Connections to one service were cleared.
    pub has_service_clear: bool,
    /// How often all of it was cleared.
    pub clears: u64,
    /// How often it was cleared or closed.
    pub pauses: u64,
    /// Connections that were created, became ready, and were closed after they were created.
    pub created: u64,
    pub readied: u64,
    pub closed: u64,
    /// Connections that were closed before they were ready.
    pub dropped: u64,
    /// Check-outs that were started, check-outs, check-ins, and check-outs that failed.
    pub started: u64,
    pub outs: u64,
    pub ins: u64,
    pub failed: u64,
    /// Connections that were handed out, came back, and lie in the pool.
    pub lying: u64,
    pub lines: PoolLines,
}

// A count past 2^64 - 1 is more than memory could have brought.
pub(crate) fn one_more(count: u64) -> Result<u64, OutOfMemory>
    ensures { IfOk result (λ n. n ≡ 1 + count) }
{
    match count.checked_add(1) {
        Some(more) => Ok(more),
        None => Err(OutOfMemory),
    }
}

fn one_more_if(is_more: bool, count: u64) -> Result<u64, OutOfMemory>
    ensures { IfOk result (λ n. n ≡ if is_more then 1 + count else count) }
{
    if is_more { one_more(count) } else { Ok(count) }
}

/// It is ready, or behind a load balancer and not closed.
pub(crate) fn hands_out(facts: &Facts) -> bool
    ensures { result ≡ hands_out facts.now }
{
    facts.is_ready || (facts.limits.is_load_balanced && !facts.is_closed)
}

/// Check-outs that were started and did not end, where so many did not end before.
pub(crate) fn waiting(facts: &Facts, before: u64) -> Result<u64, OutOfMemory>
    ensures { IfOk result (λ n. n ≡ waiting facts.now before) }
{
    let started = before.checked_add(facts.started).ok_or(OutOfMemory)?;
    let ended = facts.outs.checked_add(facts.failed).ok_or(OutOfMemory)?;
    Ok(started.saturating_sub(ended))
}

// It was handed out, came back, and lies in its pool.
fn is_lying(connection: &Connection) -> bool
    ensures { result ≡ is_lying connection.now }
{
    connection.was_out && (!connection.is_out && !connection.is_closed)
}

/// Connections that were created and not closed.
pub(crate) fn live(facts: &Facts) -> u64
    ensures { result ≡ live facts.now }
{
    facts.created.saturating_sub(facts.closed)
}

impl Facts {
    /// Nothing was told of it.
    pub const UNTOLD: Facts = Facts {
        limits: Limits {
            max_size: 0,
            max_connecting: 0,
            max_idle: 0,
            is_load_balanced: false,
        },
        is_created: false,
        is_ready: false,
        is_closed: false,
        has_error: false,
        has_service_clear: false,
        clears: 0,
        pauses: 0,
        created: 0,
        readied: 0,
        closed: 0,
        dropped: 0,
        started: 0,
        outs: 0,
        ins: 0,
        failed: 0,
        lying: 0,
        lines: PoolLines::UNTOLD,
    };

    /// After an event on this line that may name the connection.
    pub(crate) fn after(
        self,
        told: &Told,
        line: u64,
        connection: &Connection,
    ) -> Result<Facts, OutOfMemory>
        ensures { IfOk result (λ x. x ≡ facts_after told.now line connection.now self) }
    {
        let state = self.state_after(told, connection)?;
        Ok(Facts {
            lines: self.lines.after(told, line),
            ..state
        })
    }

    // Its state after an event that may name the connection.
    fn state_after(self, told: &Told, connection: &Connection) -> Result<Facts, OutOfMemory>
        ensures { IfOk result (λ x. x ≡ facts_state_after told.now connection.now self) }
    {
        match told {
            Told::PoolCreated(limits) => Ok(Facts {
                limits: *limits,
                is_created: true,
                ..self
            }),
            Told::PoolReady => Ok(Facts {
                is_ready: true,
                ..self
            }),
            Told::PoolCleared(true) => {
                let clears = one_more(self.clears)?;
                let pauses = one_more(self.pauses)?;
                Ok(Facts {
                    is_ready: false,
                    clears,
                    pauses,
                    ..self
                })
            }
            Told::PoolCleared(false) => Ok(Facts {
                has_service_clear: true,
                ..self
            }),
            Told::PoolClosed => {
                let pauses = one_more(self.pauses)?;
                Ok(Facts {
                    is_ready: false,
                    is_closed: true,
                    pauses,
                    ..self
                })
            }
            _ => self.after_connection(told, connection),
        }
    }

    // How many connections lie in it, without this one.
    fn lying_without(&self, connection: &Connection) -> u64
        ensures { result ≡ lying_without connection.now self.now }
    {
        if is_lying(connection) {
            self.lying.saturating_sub(1)
        } else {
            self.lying
        }
    }

    // After an event of a connection.
    fn after_connection(self, told: &Told, connection: &Connection) -> Result<Facts, OutOfMemory>
        ensures { IfOk result (λ x. x ≡ facts_after_connection told.now connection.now self) }
    {
        match told {
            Told::ConnectionCreated(_) => {
                let created = one_more(self.created)?;
                let lying = self.lying_without(connection);
                Ok(Facts {
                    created,
                    lying,
                    ..self
                })
            }
            Told::ConnectionReady(_) => {
                let readied = one_more(self.readied)?;
                Ok(Facts { readied, ..self })
            }
            Told::ConnectionClosed(_, reason) => self.once_closed(*reason, connection),
            Told::CheckOutStarted => {
                let started = one_more(self.started)?;
                Ok(Facts { started, ..self })
            }
            Told::CheckOutFailed(_) => {
                let failed = one_more(self.failed)?;
                Ok(Facts { failed, ..self })
            }
            Told::CheckedOut(_) => {
                let outs = one_more(self.outs)?;
                let lying = self.lying_without(connection);
                Ok(Facts {
                    outs,
                    lying,
                    ..self
                })
            }
            Told::CheckedIn(_) => {
                let ins = one_more(self.ins)?;
                let is_back = connection.is_out && !connection.is_closed;
                let lying = one_more_if(is_back, self.lying)?;
                Ok(Facts { ins, lying, ..self })
            }
            _ => Ok(self),
        }
    }

    fn once_closed(self, reason: CloseReason, connection: &Connection) -> Result<Facts, OutOfMemory>
        ensures { IfOk result (λ x. x ≡ facts_once_closed reason connection.now self) }
    {
        let closed = one_more_if(connection.is_created, self.closed)?;
        let is_dropped = connection.is_created && !connection.is_readied;
        let dropped = one_more_if(is_dropped, self.dropped)?;
        let has_error = matches!(reason, CloseReason::Error) || self.has_error;
        let lying = self.lying_without(connection);
        Ok(Facts {
            has_error,
            closed,
            dropped,
            lying,
            ..self
        })
    }
}

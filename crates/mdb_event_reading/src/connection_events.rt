//! Reading the events that tell of connections and checkouts.

ghost use Rattle.mdb_event_reading.specs.EventForms.{ReadsMade, ReadsEstablished, ReadsClosed, ReadsStarted, ReadsFailed, ReadsCheckedOut, ReadsCheckedIn};

use crate::dashes::service_or_dash;
use crate::reasons::{closed_reason, failed_reason};
use crate::shapes::{address_alone, connection, timed};
use mdb_events::{
    CmapEvent, ConnectionCheckedInEvent, ConnectionCheckedOutEvent, ConnectionCheckoutFailedEvent,
    ConnectionCheckoutStartedEvent, ConnectionClosedEvent, ConnectionCreatedEvent,
    ConnectionReadyEvent,
};
use mdb_parts::LineError;
use mdb_parts::fields::u32_field;
use mdb_parts::values::address_word;
use mdb_parts::words::{field, last, number64};
use std::alloc::Global;

/// A connection was created.
pub fn connection_created(alloc: Global, text: &str) -> Result<CmapEvent, LineError>
    ensures { ReadsMade text.now result }
{
    let (address, connection_id) = connection(alloc, text)?;
    Ok(CmapEvent::ConnectionCreated(ConnectionCreatedEvent {
        address,
        connection_id,
    }))
}

/// A connection was established.
pub fn connection_ready(alloc: Global, text: &str) -> Result<CmapEvent, LineError>
    ensures { ReadsEstablished text.now result }
{
    let (address, connection_id, duration) = timed(alloc, text)?;
    Ok(CmapEvent::ConnectionReady(ConnectionReadyEvent {
        address,
        connection_id,
        duration,
    }))
}

/// A connection was closed: its address, its number, why, and its service.
#[tactic(auto, using(crate::proofs::DashLemmas::words_lack, mdb_parts::proofs::TextLemmas::follows, mdb_parts::proofs::AddressLemmas::address_lacks))]
pub fn connection_closed(alloc: Global, text: &str) -> Result<CmapEvent, LineError>
    ensures { ReadsClosed text.now result }
{
    let (place, rest) = field(text, " ")?;
    let (connection_id, rest) = u32_field(rest, " ")?;
    let (word, rest) = field(rest, " ")?;
    let service = last(rest, " service=")?;
    let reason = closed_reason(word)?;
    let address = address_word(alloc, place)?;
    Ok(CmapEvent::ConnectionClosed(ConnectionClosedEvent {
        address,
        connection_id,
        reason,
        service_id: service_or_dash(service),
    }))
}

/// A caller asked for a connection.
pub fn checkout_started(alloc: Global, text: &str) -> Result<CmapEvent, LineError>
    ensures { ReadsStarted text.now result }
{
    let address = address_alone(alloc, text)?;
    Ok(CmapEvent::ConnectionCheckoutStarted(ConnectionCheckoutStartedEvent { address }))
}

/// A caller got no connection: the address, why, and the milliseconds.
#[tactic(auto, using(crate::proofs::DashLemmas::words_lack, mdb_parts::proofs::TextLemmas::follows, mdb_parts::proofs::AddressLemmas::address_lacks))]
pub fn checkout_failed(alloc: Global, text: &str) -> Result<CmapEvent, LineError>
    ensures { ReadsFailed text.now result }
{
    let (place, rest) = field(text, " ")?;
    let (word, rest) = field(rest, " ")?;
    let digits = last(rest, " ")?;
    let duration = number64(digits).ok_or(LineError::Bad)?;
    let reason = failed_reason(word)?;
    let address = address_word(alloc, place)?;
    Ok(CmapEvent::ConnectionCheckoutFailed(ConnectionCheckoutFailedEvent {
        address,
        reason,
        duration,
    }))
}

/// A caller got a connection.
pub fn checked_out(alloc: Global, text: &str) -> Result<CmapEvent, LineError>
    ensures { ReadsCheckedOut text.now result }
{
    let (address, connection_id, duration) = timed(alloc, text)?;
    Ok(CmapEvent::ConnectionCheckedOut(ConnectionCheckedOutEvent {
        address,
        connection_id,
        duration,
    }))
}

/// A connection came back.
pub fn checked_in(alloc: Global, text: &str) -> Result<CmapEvent, LineError>
    ensures { ReadsCheckedIn text.now result }
{
    let (address, connection_id) = connection(alloc, text)?;
    Ok(CmapEvent::ConnectionCheckedIn(ConnectionCheckedInEvent {
        address,
        connection_id,
    }))
}

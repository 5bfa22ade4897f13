//! Reading an event of a pool.

ghost use Rattle.std.specs.Prelude.{◌≡◌, true};
ghost use Rattle.mdb_events.specs.EventText.{event_text};
ghost use Rattle.mdb_events.specs.declared.cmap.CmapEvent.{CmapEvent};
ghost use Rattle.mdb_event_reading.specs.EventTypes.{is_event, IsEventOfTypes};
ghost use Rattle.mdb_event_reading.specs.EventForms.{ReadsEvent, ReadsNamed};
ghost use Rattle.mdb_parts.specs.Reading.{Gives};

use crate::connection_events::{
    checked_in, checked_out, checkout_failed, checkout_started, connection_closed,
    connection_created, connection_ready,
};
use crate::event_kind::{EventKind, event_kind};
use crate::pool_events::{pool_cleared, pool_closed, pool_created, pool_ready};
use mdb_base::cut;
use mdb_events::CmapEvent;
use mdb_parts::LineError;
use std::alloc::Global;

fn read_kind(alloc: Global, kind: EventKind, text: &str) -> Result<CmapEvent, LineError>
    ensures { ReadsEvent kind text.now result }
{
    match kind {
        EventKind::PoolCreated => pool_created(alloc, text),
        EventKind::PoolReady => pool_ready(alloc, text),
        EventKind::PoolCleared => pool_cleared(alloc, text),
        EventKind::PoolClosed => pool_closed(alloc, text),
        EventKind::ConnectionCreated => connection_created(alloc, text),
        EventKind::ConnectionReady => connection_ready(alloc, text),
        EventKind::ConnectionClosed => connection_closed(alloc, text),
        EventKind::CheckoutStarted => checkout_started(alloc, text),
        EventKind::CheckoutFailed => checkout_failed(alloc, text),
        EventKind::CheckedOut => checked_out(alloc, text),
        EventKind::CheckedIn => checked_in(alloc, text),
    }
}

fn read_named(alloc: Global, text: &str) -> Result<CmapEvent, LineError>
    ensures { ReadsNamed text.now result }
{
    let (name, rest) = cut(text, ' ');
    match event_kind(name) {
        Some(kind) => read_kind(alloc, kind, rest),
        None => Err(LineError::Bad),
    }
}

/// The event that a text spells. It may take more than is spelled: what is read is compared with its text.
pub fn read_event(alloc: Global, text: &str) -> Result<CmapEvent, LineError>
    ensures { (e : CmapEvent) → IsEventOfTypes e → is_event e ≡ true → text.now ≡ event_text e → Gives e result }
{
    read_named(alloc, text)
}

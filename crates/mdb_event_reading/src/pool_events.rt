//! Reading the events that tell of a pool.

ghost use Rattle.std.specs.Prelude.{◌≡◌, ◌++◌, codes, Option, IfSome};
ghost use Rattle.mdb_events.specs.EventText.{pool_options, options_or_dash};
ghost use Rattle.mdb_events.specs.declared.cmap.ConnectionPoolOptions.{ConnectionPoolOptions};
ghost use Rattle.mdb_event_reading.specs.EventTypes.{AreSizesOfTypes};
ghost use Rattle.mdb_event_reading.specs.EventForms.{ReadsCreated, ReadsReady, ReadsCleared, ReadsClosedPool};
ghost use Rattle.mdb_parts.specs.Reading.{Gives};

use crate::dashes::{narrow_or_dash, service_or_dash, truth, wide_or_dash};
use crate::shapes::address_alone;
use mdb_events::{
    CmapEvent, ConnectionPoolOptions, Boxed, PoolClearedEvent, PoolClosedEvent, PoolCreatedEvent,
    PoolReadyEvent,
};
use mdb_parts::LineError;
use mdb_parts::values::address_word;
use mdb_parts::words::{field, last};
use std::alloc::Global;

#[tactic(auto, using(crate::proofs::DashLemmas::dashes_lack, mdb_parts::proofs::TextLemmas::follows))]
fn sizes(text: &str) -> Result<ConnectionPoolOptions, LineError>
    ensures { (o : ConnectionPoolOptions) → AreSizesOfTypes o → text.now ≡ codes " " ++ pool_options o → Gives o result }
{
    let (max, rest) = field(text, " max=")?;
    let (min, rest) = field(rest, " min=")?;
    let idle = last(rest, " idle=")?;
    Ok(ConnectionPoolOptions {
        max_idle_time: wide_or_dash(idle),
        max_pool_size: narrow_or_dash(max),
        min_pool_size: narrow_or_dash(min),
    })
}

fn sizes_or_dash(
    alloc: Global,
    text: &str,
) -> Result<Option<Boxed<ConnectionPoolOptions>>, LineError>
    ensures { (o : Option ConnectionPoolOptions) → IfSome o AreSizesOfTypes → text.now ≡ codes " " ++ options_or_dash o → Gives o result }
{
    if text == " -" {
        return Ok(None);
    }
    let sizes = sizes(text)?;
    Ok(Some(Boxed::new(alloc, sizes)?))
}

/// A pool was made: its address and its sizes.
#[tactic(auto, using(mdb_parts::proofs::TextLemmas::follows, mdb_parts::proofs::AddressLemmas::address_lacks))]
pub fn pool_created(alloc: Global, text: &str) -> Result<CmapEvent, LineError>
    ensures { ReadsCreated text.now result }
{
    let (place, rest) = field(text, " ")?;
    let options = sizes_or_dash(alloc, rest)?;
    let address = address_word(alloc, place)?;
    Ok(CmapEvent::PoolCreated(PoolCreatedEvent { address, options }))
}

/// A pool may hand out connections: its address.
pub fn pool_ready(alloc: Global, text: &str) -> Result<CmapEvent, LineError>
    ensures { ReadsReady text.now result }
{
    let address = address_alone(alloc, text)?;
    Ok(CmapEvent::PoolReady(PoolReadyEvent { address }))
}

/// The connections of a pool became stale: its address, the service, and whether they are interrupted.
#[tactic(auto, using(crate::proofs::DashLemmas::dashes_lack, mdb_parts::proofs::TextLemmas::follows, mdb_parts::proofs::AddressLemmas::address_lacks))]
pub fn pool_cleared(alloc: Global, text: &str) -> Result<CmapEvent, LineError>
    ensures { ReadsCleared text.now result }
{
    let (place, rest) = field(text, " ")?;
    let (service, rest) = field(rest, " service=")?;
    let interrupt = last(rest, " interrupt=")?;
    let address = address_word(alloc, place)?;
    Ok(CmapEvent::PoolCleared(PoolClearedEvent {
        address,
        service_id: service_or_dash(service),
        interrupt_in_use_connections: truth(interrupt),
    }))
}

/// A pool was closed: its address.
pub fn pool_closed(alloc: Global, text: &str) -> Result<CmapEvent, LineError>
    ensures { ReadsClosedPool text.now result }
{
    let address = address_alone(alloc, text)?;
    Ok(CmapEvent::PoolClosed(PoolClosedEvent { address }))
}

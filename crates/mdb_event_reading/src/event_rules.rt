//! Which events of pools a text spells.

ghost use Rattle.std.specs.Prelude.{◌≡◌, ◌<◌, ◌^◌, IfSome};
ghost use Rattle.mdb_event_reading.specs.EventTypes.{is_event, AreSizesOfTypes, IsEventOfTypes};

use mdb_base::Moment;
use mdb_events::{CmapEvent, ConnectionPoolOptions, Boxed};
use mdb_parts::number_types::{narrow, optional_id, wide};

/// The address keeps the rules of addresses.
pub fn is_event(event: &CmapEvent) -> bool
    ensures { result ≡ is_event event.now }
{
    match event {
        CmapEvent::PoolCreated(e) => e.address.is_regular(),
        CmapEvent::PoolReady(e) => e.address.is_regular(),
        CmapEvent::PoolCleared(e) => e.address.is_regular(),
        CmapEvent::PoolClosed(e) => e.address.is_regular(),
        CmapEvent::ConnectionCreated(e) => e.address.is_regular(),
        CmapEvent::ConnectionReady(e) => e.address.is_regular(),
        CmapEvent::ConnectionClosed(e) => e.address.is_regular(),
        CmapEvent::ConnectionCheckoutStarted(e) => e.address.is_regular(),
        CmapEvent::ConnectionCheckoutFailed(e) => e.address.is_regular(),
        CmapEvent::ConnectionCheckedOut(e) => e.address.is_regular(),
        CmapEvent::ConnectionCheckedIn(e) => e.address.is_regular(),
    }
}

fn sizes(sizes: &Option<Boxed<ConnectionPoolOptions>>)
    ensures { IfSome sizes.now AreSizesOfTypes }
{
    match sizes {
        Some(sizes) => {
            let sizes = sizes.get();
            narrow(sizes.max_pool_size);
            narrow(sizes.min_pool_size);
            wide(sizes.max_idle_time);
        }
        None => {}
    }
}

fn number(_number: u32)
    ensures { _number < 2 ^ 32 }
{}

fn moment(_moment: Moment)
    ensures { _moment < 2 ^ 64 }
{}

/// The numbers of an event are those of its types.
pub fn event_types(event: &CmapEvent)
    ensures { IsEventOfTypes event.now }
{
    match event {
        CmapEvent::PoolCreated(e) => sizes(&e.options),
        CmapEvent::PoolCleared(e) => optional_id(e.service_id),
        CmapEvent::ConnectionCreated(e) => number(e.connection_id),
        CmapEvent::ConnectionReady(e) => {
            number(e.connection_id);
            moment(e.duration);
        }
        CmapEvent::ConnectionClosed(e) => {
            number(e.connection_id);
            optional_id(e.service_id);
        }
        CmapEvent::ConnectionCheckoutFailed(e) => moment(e.duration),
        CmapEvent::ConnectionCheckedOut(e) => {
            number(e.connection_id);
            moment(e.duration);
        }
        CmapEvent::ConnectionCheckedIn(e) => number(e.connection_id),
        _ => {}
    }
}

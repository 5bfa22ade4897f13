//! What a fact names: an address, and the types before and after a change.

ghost use Rattle.std.specs.Prelude.{◌≡◌, option_copied};
ghost use Rattle.mdb_c.specs.FactParts.{pool_address, fact_address, sdam_types, fact_types};

use crate::types::{server_type_number, topology_type_number};
use mdb_base::ServerAddress;
use mdb_events::{CmapEvent, Fact, SdamEvent};
use mdb_session::sdam_address;

/// The types of a server or of the topology before and after a change.
#[repr(C)]
#[derive(Clone, Copy)]
pub struct TypesNumbers {
    /// Before the change, from 1.
    pub before: u32,
    /// After it, from 1.
    pub after: u32,
}

fn pool_address(event: &CmapEvent) -> &ServerAddress
    ensures { result.now ≡ pool_address event.now }
{
    match event {
        CmapEvent::PoolCreated(e) => &e.address,
        CmapEvent::PoolReady(e) => &e.address,
        CmapEvent::PoolCleared(e) => &e.address,
        CmapEvent::PoolClosed(e) => &e.address,
        CmapEvent::ConnectionCreated(e) => &e.address,
        CmapEvent::ConnectionReady(e) => &e.address,
        CmapEvent::ConnectionClosed(e) => &e.address,
        CmapEvent::ConnectionCheckoutStarted(e) => &e.address,
        CmapEvent::ConnectionCheckoutFailed(e) => &e.address,
        CmapEvent::ConnectionCheckedOut(e) => &e.address,
        CmapEvent::ConnectionCheckedIn(e) => &e.address,
    }
}

/// The address that a fact names, if it names one.
pub fn address_of_fact(fact: &Fact) -> Option<&ServerAddress>
    ensures { option_copied result ≡ fact_address fact.now }
{
    match fact {
        Fact::Opened(_, address) => Some(address),
        Fact::Pool(_, event) => Some(pool_address(event)),
        Fact::Granted(_, _, _) => None,
        Fact::Ended(_, _) => None,
        Fact::Raised(_, _, _) => None,
        Fact::Sdam(event) => sdam_address(event.get()),
        Fact::CheckNow(address) => Some(address),
        Fact::Cancel(address) => Some(address),
    }
}

fn sdam_types(event: &SdamEvent) -> Option<TypesNumbers>
    ensures { result ≡ sdam_types event.now }
{
    match event {
        SdamEvent::ServerDescriptionChanged(e) => Some(TypesNumbers {
            before: server_type_number(e.previous_description.server_type),
            after: server_type_number(e.new_description.server_type),
        }),
        SdamEvent::TopologyDescriptionChanged(e) => Some(TypesNumbers {
            before: topology_type_number(e.previous_description.topology_type()),
            after: topology_type_number(e.new_description.topology_type()),
        }),
        _ => None,
    }
}

/// The types before and after the change that a fact tells of, if it tells of one.
pub fn types_of_fact(fact: &Fact) -> Option<TypesNumbers>
    ensures { result ≡ fact_types fact.now }
{
    match fact {
        Fact::Sdam(event) => sdam_types(event.get()),
        _ => None,
    }
}

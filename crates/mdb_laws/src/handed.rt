//! What the pool that a driver hands out tells, by the history of the driver.

ghost use Rattle.std.specs.Prelude.{◌≡◌, ◌&&◌, List, None, Some, true, if◌then◌else◌, is_some, length, nat_lt, option_copied};
ghost use Rattle.mdb_slots.specs.Items.{records_of};
ghost use Rattle.mdb_slots.specs.Slots.{OpenSlots, listing};
ghost use Rattle.mdb_slots.specs.declared.records.Record.{Record};
ghost use Rattle.mdb_log.specs.Connections.{holding, is_live, known_service};
ghost use Rattle.mdb_log.specs.Generations.{carried};
ghost use Rattle.mdb_log.specs.History.{Item, has_asked, of_pool};
ghost use Rattle.mdb_log.specs.Homes.{homes};
ghost use Rattle.mdb_log.specs.Opening.{pool_options};
ghost use Rattle.mdb_log.specs.Requests.{is_open};
ghost use Rattle.mdb_log.specs.State.{generation_before};
ghost use Rattle.mdb_pool_rules.specs.Available.{available_records};
ghost use Rattle.mdb_topology.specs.Standing.{StandsFor};
ghost use Rattle.mdb_driver_pools.specs.Standing.{IsGone};

use mdb_pool::ConnectionGeneration;
use mdb_slots::SlotTable;
use mdb_topology::TopologyCore;

/// The connections of the pool that nobody has, in the order in which they became available, each with its service and the moment since then. `None` where no pool of this
/// number was opened, or the pool was closed and nothing of it lives.
pub fn available_at(core: &TopologyCore, pool: u32) -> Option<&SlotTable>
    ensures opened { (h : List Item) → StandsFor core.now h → is_some (option_copied result) ≡ true → nat_lt pool (length (homes h)) ≡ true }
    ensures missing { (h : List Item) → StandsFor core.now h → option_copied result ≡ None → IsGone h pool }
    ensures told { (h : List Item) (table : OpenSlots Record) → StandsFor core.now h → option_copied result ≡ Some table → records_of (listing table).items ≡ available_records (of_pool pool h) }
{
    match core.pool(pool) {
        Some(known) => Some(known.available()),
        None => None,
    }
}

/// The connection of the pool that the party holds.
pub fn held_at(core: &TopologyCore, pool: u32, party: u32) -> Option<u32>
    ensures { (h : List Item) → StandsFor core.now h → result ≡ holding (of_pool pool h) party }
{
    match core.pool(pool) {
        Some(known) => known.held_by(party),
        None => None,
    }
}

/// The request was made at the pool, its outcome was not told yet, and its caller neither gave up nor returned the connection.
pub fn is_open_at(core: &TopologyCore, pool: u32, request: u32) -> bool
    ensures { (h : List Item) → StandsFor core.now h → result ≡ has_asked (of_pool pool h) request && is_open h request }
{
    match core.pool(pool) {
        Some(known) => known.is_open(request),
        None => false,
    }
}

/// The generation that the connection of the pool carries, `None` where it isn't live.
pub fn generation_at(core: &TopologyCore, pool: u32, id: u32) -> Option<ConnectionGeneration>
    ensures { (h : List Item) → StandsFor core.now h → result ≡ if is_live (of_pool pool h) id then Some (carried (pool_options core.now.options).load_balanced (generation_before (of_pool pool h) id) (known_service (of_pool pool h) id)) else None }
{
    match core.pool(pool) {
        Some(known) => known.connection_generation(id),
        None => None,
    }
}

//! Whether what was touched is in place, and whether somebody is left waiting.

ghost use Rattle.std.specs.Prelude.{◌≡◌, ◌&&◌, is_some, List, IfOk, OnOk};
ghost use Rattle.mdb_log.specs.History.{Item};
ghost use Rattle.mdb_tallies.specs.Kept.{Stands};
ghost use Rattle.mdb_judging.specs.Queueing.{QueuesStand};
ghost use Rattle.mdb_judging.specs.Taking.{all_in_place, is_left_at, is_left};

use crate::queues::Queues;
use mdb_base::OutOfMemory;
use mdb_log::PoolOptions;
use mdb_pins::PinStory;
use mdb_tallies::{Place, Tables};

/// Each of these connections is in place.
pub fn are_in_place(tables: &Tables, pins: &PinStory, places: &[Place]) -> Result<bool, OutOfMemory>
    ensures { IfOk result (λ b. b ≡ all_in_place tables.now pins.now places.now) }
{
    let mut rest = places;
    while let [place, more @ ..] = rest {
        let connection = tables.connections.get((place.pool, place.id, 0));
        let is_pinned = pins.is_pinned(connection.kept, place.pool, place.id)?;
        if !connection.is_in_place(is_pinned)? {
            return Ok(false);
        }
        rest = more;
    }
    Ok(true)
}

// Somebody waits, and could be granted a connection.
fn is_waiting(first: Option<u32>, could: bool) -> bool
    ensures { result ≡ is_some first && could }
{
    first.is_some() && could
}

// Somebody waits at the pool who could be granted a connection.
fn is_left_at(
    options: &PoolOptions,
    tables: &Tables,
    queues: &mut Queues,
    pool: u32,
) -> Result<bool, OutOfMemory>
    ensures answer { IfOk result (λ b. (h : List Item) → Stands options.now h tables.now → QueuesStand h queues.old → b ≡ is_left_at options.now h pool) }
    ensures kept { OnOk result ((h : List Item) → Stands options.now h tables.now → QueuesStand h queues.old → QueuesStand h queues.new) }
{
    let known = tables.pools.get((pool, 0, 0));
    let could = known.could_grant(options)?;
    let first = queues.first(tables, pool)?;
    Ok(is_waiting(first, could))
}

/// Somebody waits at one of these pools who could be granted a connection.
pub fn is_left(
    options: &PoolOptions,
    tables: &Tables,
    queues: &mut Queues,
    pools: &[u32],
) -> Result<bool, OutOfMemory>
    ensures answer { IfOk result (λ b. (h : List Item) → Stands options.now h tables.now → QueuesStand h queues.old → b ≡ is_left options.now h pools.now) }
    ensures kept { OnOk result ((h : List Item) → Stands options.now h tables.now → QueuesStand h queues.old → QueuesStand h queues.new) }
{
    let mut rest = pools;
    while let Some((pool, more)) = rest.split_first() {
        let left = is_left_at(options, tables, queues, *pool)?;
        if left {
            return Ok(true);
        }
        rest = more;
    }
    Ok(false)
}

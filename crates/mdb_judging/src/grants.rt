//! Whether grants are to those who come first.

ghost use Rattle.std.specs.Prelude.{◌≡◌, ◌&&◌, nat_lt, Some, List, IfOk, OnOk};
ghost use Rattle.mdb_log.specs.History.{Item, is_number};
ghost use Rattle.mdb_log.specs.PlainLegal.{IsNext};
ghost use Rattle.mdb_log.specs.PlainRequests.{pool_of};
ghost use Rattle.mdb_log.specs.declared.options.PoolOptions.{PoolOptions};
ghost use Rattle.mdb_tallies.specs.Kept.{Stands};
ghost use Rattle.mdb_judging.specs.Queueing.{QueuesStand};
ghost use Rattle.mdb_judging.specs.Fairness.{FairGrant, FairFact};
ghost use Rattle.mdb_judging.specs.Taking.{Tells};

use crate::queues::Queues;
use mdb_base::OutOfMemory;
use mdb_entries::ShownFact;
use mdb_tallies::{Connection, Party, Tables};

fn is_number(number: Option<u32>, other: u32) -> bool
    ensures { result ≡ is_number number other }
{
    match number {
        Some(number) => number == other,
        None => false,
    }
}

// The pool asked is this one, and the connection was created.
fn is_own(known: &Party, connection: &Connection, pool: u32) -> bool
    ensures { result ≡ is_number known.now.pool pool && nat_lt 0 connection.now.creations }
{
    is_number(known.pool, pool) && 0 < connection.creations
}

// A warm request comes first where it is queued, a caller where it waits longest.
fn is_next(tables: &Tables, queues: &mut Queues, party: u32, pool: u32) -> Result<bool, OutOfMemory>
    ensures answer { IfOk result (λ b. (o : PoolOptions) (h : List Item) → Stands o h tables.now → QueuesStand h queues.old → pool_of h party ≡ Some pool → Tells b (IsNext pool h party)) }
    ensures kept { OnOk result ((o : PoolOptions) (h : List Item) → Stands o h tables.now → QueuesStand h queues.old → QueuesStand h queues.new) }
{
    let known = tables.parties.get((party, 0, 0));
    if known.is_warm {
        return Ok(known.is_queued());
    }
    let first = queues.first(tables, pool)?;
    Ok(is_number(first, party))
}

// The grant is of a connection of the pool that the request asked, to who comes first there.
fn is_first_come(
    tables: &Tables,
    queues: &mut Queues,
    party: u32,
    pool: u32,
    id: u32,
) -> Result<bool, OutOfMemory>
    ensures answer { IfOk result (λ b. (o : PoolOptions) (h : List Item) → Stands o h tables.now → QueuesStand h queues.old → Tells b (FairGrant h party pool id)) }
    ensures kept { OnOk result ((o : PoolOptions) (h : List Item) → Stands o h tables.now → QueuesStand h queues.old → QueuesStand h queues.new) }
{
    let known = tables.parties.get((party, 0, 0));
    let connection = tables.connections.get((pool, id, 0));
    let is_own = is_own(&known, &connection, pool);
    if !is_own {
        return Ok(false);
    }
    let is_next = is_next(tables, queues, party, pool)?;
    Ok(is_next)
}

/// Whether the fact grants to who comes first, or is no grant.
pub fn is_fair(tables: &Tables, queues: &mut Queues, fact: &ShownFact) -> Result<bool, OutOfMemory>
    ensures answer { IfOk result (λ b. (o : PoolOptions) (h : List Item) → Stands o h tables.now → QueuesStand h queues.old → Tells b (FairFact h fact.now)) }
    ensures kept { OnOk result ((o : PoolOptions) (h : List Item) → Stands o h tables.now → QueuesStand h queues.old → QueuesStand h queues.new) }
{
    match fact {
        ShownFact::Granted(party, pool, id) => is_first_come(tables, queues, *party, *pool, *id),
        _ => Ok(true),
    }
}

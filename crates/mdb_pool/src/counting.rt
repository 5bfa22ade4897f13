//! How many connections and requests a pool has.
#![tactic(auto, unfolding(crate::specs::Now::queries))]

ghost use Rattle.std.specs.Prelude.{◌≡◌, List, length};

use crate::pool_core::PoolCore;

impl PoolCore {
    ghost use Rattle.mdb_log.specs.Connections.{available_list, live_total, pending_list};
    ghost use Rattle.mdb_log.specs.History.{PoolItem};
    ghost use Rattle.mdb_log.specs.Requests.{queued, waiting};
    ghost use Rattle.mdb_pool.specs.Counted.{in_use_total};
    ghost use Rattle.mdb_pool.specs.Standing.{Fits};

    /// How many connections live: created, and not closed.
    pub fn live_count(&self) -> usize
        ensures { (xs : List PoolItem) → Fits self.now xs → result ≡ live_total xs }
    {
        self.draft.body.connections.len()
    }

    /// How many of them are available.
    pub fn available_count(&self) -> usize
        ensures { (xs : List PoolItem) → Fits self.now xs → result ≡ length (available_list xs) }
    {
        self.draft.body.available_count()
    }

    /// How many of them are not established yet.
    pub fn pending_count(&self) -> usize
        ensures { (xs : List PoolItem) → Fits self.now xs → result ≡ length (pending_list xs) }
    {
        self.draft.body.pending_count()
    }

    /// How many of them are in use: a party has them since they were established, or they stay checked out at a pin.
    pub fn in_use_count(&self) -> usize
        ensures { (xs : List PoolItem) → Fits self.now xs → result ≡ in_use_total xs }
    {
        self.draft.body.in_use_count()
    }

    /// How many requests are queued, callers and warm ones.
    pub fn queued_count(&self) -> usize
        ensures { (xs : List PoolItem) → Fits self.now xs → result ≡ length (queued xs) }
    {
        self.draft.body.queued_count()
    }

    /// How many callers wait in the queue.
    pub fn waiting_count(&self) -> usize
        ensures { (xs : List PoolItem) → Fits self.now xs → result ≡ length (waiting xs) }
    {
        self.draft.body.waiting_count()
    }
}

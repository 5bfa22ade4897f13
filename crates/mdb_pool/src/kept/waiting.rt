//! The requests of a pool that wait: nothing was handed to them.

ghost use Rattle.std.specs.Prelude.{◌≡◌, IfOk, List, count_by, is_some, length, map};

use crate::kept::draft::Draft;
use crate::kept::request::{Phase, Request};
use mdb_base::OutOfMemory;
use std::alloc::Global;

impl Draft {
    ghost use Rattle.mdb_log.specs.History.{PoolItem};
    ghost use Rattle.mdb_pool.specs.Standing.{Fits};
    ghost use Rattle.mdb_pool.specs.Kept.Values.{unserved_in};
    ghost use Rattle.mdb_pool.specs.Acts.Changes.{pending_ones, unserved_ones};

    // Nothing was handed to the request: it is queued, or its connection is pending.
    pub(crate) fn is_unserved(&self, request: &Request) -> bool
        ensures { result ≡ unserved_in self.now request.now.phase }
    {
        match &request.phase {
            Phase::Queued => true,
            Phase::Given(id) => self.body.is_pending(*id),
            _ => false,
        }
    }

    // How many pending connections are somebody's.
    fn awaited_count(&self) -> usize
        ensures { result ≡ count_by (λ x. is_some x.holder) (pending_ones self.now) }
    {
        let mut count = self.pending_count();
        let mut next = self.first_pending();
        while let Some(x) = next {
            if x.holder.is_none() {
                count -= 1;
            }
            next = self.next_pending(x.id);
        }
        count
    }

    // How many such requests there are: no two have one connection, and whose connection is pending is its holder.
    fn unserved_count(&self) -> usize
        ensures { (xs : List PoolItem) → Fits self.now xs → result ≡ length (unserved_ones self.now) }
    {
        // They are no more than all requests.
        let _requests = self.asked();
        self.queued_count().saturating_add(self.awaited_count())
    }

    // Their numbers, in the order of the requests. The newest request is looked at first, and none once all are found.
    pub(crate) fn unserved_numbers(&self, alloc: Global) -> Result<Vec<u32>, OutOfMemory>
        ensures { IfOk result (λ numbers. (xs : List PoolItem) → Fits self.now xs → numbers.items ≡ map (λ q. q.number) (unserved_ones self.now)) }
    {
        // No other request has the number of one.
        let _requests = self.asked();
        let mut missing = self.unserved_count();
        let mut numbers = Vec::new(alloc);
        let mut next = self.last_request();
        while let Some(q) = next {
            if missing == 0 {
                break;
            }
            if self.is_unserved(q) {
                numbers.push(q.number)?;
                missing -= 1;
            }
            next = self.previous_request(q.number);
        }
        numbers.reverse();
        Ok(numbers)
    }
}

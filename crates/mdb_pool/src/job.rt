//! What a worker has to know that establishes a pending connection.
#![tactic(auto, unfolding(crate::specs::Now::queries))]

ghost use Rattle.std.specs.Prelude.{◌≡◌, IfOk, Some};

use crate::pool_core::PoolCore;
use crate::{Job, PoolGeneration, PoolStamp};
use mdb_base::{Items, ObjectId, OutOfMemory};
use std::alloc::{AllocError, Global};

impl PoolCore {
    ghost use Rattle.std.specs.Prelude.{map, List, true, not};
    ghost use Rattle.std.specs.List.{list_any};
    ghost use Rattle.mdb_log.specs.Requests.{is_claimed};
    ghost use Rattle.mdb_pool.specs.Now.{is_live_now};
    ghost use Rattle.mdb_pool_rules.specs.Jobs.{items_before, generations, job_in};
    ghost use Rattle.mdb_pool.specs.Kept.Values.{count_at};
    ghost use Rattle.mdb_log.specs.History.{Item, PoolItem, of_pool};
    ghost use Rattle.mdb_log.specs.Connections.{has, pending_list};
    ghost use Rattle.mdb_pool.specs.Standing.{Fits, StandsIn};

    // How often the pool was cleared so before the connection was created, 0 where it isn't live.
    fn count_at(&self, id: u32, service: Option<ObjectId>) -> u64
        ensures { result ≡ count_at self.now id service }
    {
        self.draft.body.generation_before(id, service).unwrap_or(0)
    }

    // Each service, with how often it was cleared before the connection was created.
    fn counted(
        &self,
        alloc: Global,
        id: u32,
        services: &[ObjectId],
    ) -> Result<Vec<(ObjectId, u64)>, AllocError>
        ensures { IfOk result (λ counted. counted.items ≡ map (λ t. (t, count_at self.now id (Some t))) services.now) }
    {
        let mut counted = Vec::new(alloc);
        for service in services {
            counted.push((*service, self.count_at(id, Some(*service))))?;
        }
        Ok(counted)
    }

    // The generation of the pool before the connection, which lives, was created.
    fn generations_before(&self, alloc: Global, id: u32) -> Result<PoolGeneration, AllocError>
        requires { is_live_now self.now id ≡ true }
        ensures { IfOk result (λ before. (xs : List PoolItem) → Fits self.now xs → has id (pending_list xs) ≡ true → before ≡ generations self.now.options.load_balanced (items_before xs id)) }
    {
        if !self.draft.options().load_balanced {
            return Ok(PoolGeneration::Normal(self.count_at(id, None)));
        }
        let services = self.draft.body.connections.services_before(alloc, id)?;
        let counted = self.counted(alloc, id, services.as_slice())?;
        Ok(PoolGeneration::LoadBalanced(Items::new(counted)))
    }

    /// What a worker needs that establishes the connection (CMAP, "Establishing a Connection"): the pool, the address, and how often the pool was
    /// cleared before the connection was created, so that the pool can tell whether it was cleared since. `None` where no connection of this id is
    /// pending: none was created, or it is established or closed. `OutOfMemory` where there is no memory for the copy of the address or for the
    /// list of services; the pool is as it was.
    pub fn job(&self, alloc: Global, id: u32) -> Result<Option<Job>, OutOfMemory>
        ensures { IfOk result (λ job. (xs : List PoolItem) → Fits self.now xs → job ≡ job_in self.now.pool self.now.address self.now.options xs id) }
    {
        if !self.draft.body.is_pending(id) {
            return Ok(None);
        }
        let pool = self.number();
        let address = self.address().clone()?;
        let generation = self.generations_before(alloc, id)?;
        Ok(Some(Job {
            pool,
            id,
            address,
            generation: PoolStamp { pool, generation },
        }))
    }

    /// Some pending connection was told by no claim: the next claim is told a job.
    pub fn has_job(&self) -> bool
        ensures { (h : List Item) → StandsIn self.now h → result ≡ list_any (λ c. not (is_claimed h self.now.pool c)) (pending_list (of_pool self.now.pool h)) }
    {
        self.draft.body.first_unclaimed().is_some()
    }
}

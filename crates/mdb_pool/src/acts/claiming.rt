//! A worker asks a pool for a connection to establish.

ghost use Rattle.std.specs.Prelude.{◌≡◌, OnOk, OnErr, IfOk, List};

use crate::kept::draft::Draft;
use crate::pool_core::PoolCore;
use crate::{Act, Reply, Step};
use mdb_base::{Moment, OutOfMemory};
use mdb_events::Fact;
use std::alloc::Global;

impl Draft {
    ghost use Rattle.mdb_pool.specs.Kept.Values.{job_now};
    ghost use Rattle.mdb_pool.specs.Acts.Changes.{claiming};
    ghost use Rattle.mdb_pool.specs.Standing.{SameHome, Fits, Accepts, StandsFor, Answers};
    ghost use Rattle.mdb_log.specs.History.{Item, PoolItem};
    ghost use Rattle.mdb_log.specs.declared.step.Act.TheVariants.{Claim};

    // The first job that no claim was told of.
    fn take_job(&mut self) -> Result<Reply, OutOfMemory>
        ensures core { OnOk result (self.new ≡ claiming self.old) }
        ensures reply { IfOk result (λ reply. reply ≡ job_now self.old) }
        ensures inner { self.new.kept.inner ≡ self.old.kept.inner }
    {
        let Some(connection) = self.first_unclaimed() else {
            return Ok(Reply::NoJob);
        };
        self.claim(&connection);
        Ok(Reply::Job(self.number(), connection.id))
    }

    // A worker is told the pending connection that came first among those that no other is told of. Whoever calls has tested the refusals.
    #[tactic(auto, unfolding(crate::specs::Now::queries))]
    pub(crate) fn accept_claim(
        &mut self,
        alloc: Global,
        facts: &mut Vec<Fact>,
        moment: Moment,
    ) -> Result<Reply, OutOfMemory>
        ensures home { OnOk result (SameHome self.old self.new) }
        ensures last { OnOk result (self.new.kept.last ≡ moment) }
        ensures accepts { IfOk result (λ reply. (xs : List PoolItem) → Fits self.old xs → Accepts self.old self.new facts.old.items facts.new.items moment Claim reply xs xs) }
        ensures inner { self.new.kept.inner ≡ self.old.kept.inner }
    {
        let reply = self.take_job()?;
        self.set_last(moment);
        self.serve(alloc, facts, moment)?;
        Ok(reply)
    }
}

impl PoolCore {
    ghost use Rattle.mdb_pool.specs.Kept.Values.{job_now};
    ghost use Rattle.mdb_pool.specs.Acts.Changes.{claiming};
    ghost use Rattle.mdb_pool.specs.Standing.{SameHome, Fits, Accepts, StandsFor, Answers};
    ghost use Rattle.mdb_pool.specs.Planning.{Passes};
    ghost use Rattle.mdb_log.specs.History.{Item, PoolItem};
    ghost use Rattle.mdb_log.specs.declared.step.Act.TheVariants.{Claim};

    /// A worker asks for a connection to establish. Refused as `TimeBack`.
    pub fn claim(
        &mut self,
        alloc: Global,
        facts: &mut Vec<Fact>,
        moment: Moment,
    ) -> Result<Reply, OutOfMemory>
        ensures home { OnOk result (SameHome self.old self.new) }
        ensures answers { IfOk result (λ reply. (h : List Item) → StandsFor self.old h → Answers self.old self.new facts.old.items facts.new.items (record { moment = moment; act = Claim }) reply h) }
        ensures err_core { OnErr result (self.new ≡ self.old) }
        ensures err_facts { OnErr result (facts.new.items ≡ facts.old.items) }
        ensures passes { OnErr result (Passes self.old (record { moment = moment; act = Claim })) }
    {
        let step = Step {
            moment,
            act: Act::Claim,
        };
        let answer = self.attempt(alloc, facts, &step);
        drop(step);
        answer
    }
}

//! The caller of a request asks a pool how it stands.

ghost use Rattle.std.specs.Prelude.{◌≡◌, OnOk, OnErr, IfOk, List, false};

use crate::kept::draft::Draft;
use crate::pool_core::PoolCore;
use crate::{Act, Reply, Step};
use mdb_base::{Moment, OutOfMemory};
use mdb_events::Fact;
use std::alloc::Global;

impl Draft {
    ghost use Rattle.mdb_log.specs.Connections.{has};
    ghost use Rattle.mdb_pool.specs.Standing.{SameHome, Fits, Accepts, StandsFor, Answers};
    ghost use Rattle.mdb_log.specs.History.{Item, PoolItem};
    ghost use Rattle.mdb_log.specs.declared.step.Act.TheVariants.{Collect};

    // An open request is told how it stands. Whoever calls has tested the refusals.
    #[tactic(auto, unfolding(crate::specs::Now::queries))]
    pub(crate) fn accept_collect(
        &mut self,
        alloc: Global,
        facts: &mut Vec<Fact>,
        moment: Moment,
        request: u32,
    ) -> Result<Reply, OutOfMemory>
        requires { has request self.old.kept.settled ≡ false }
        ensures home { OnOk result (SameHome self.old self.new) }
        ensures last { OnOk result (self.new.kept.last ≡ moment) }
        ensures accepts { IfOk result (λ reply. (xs : List PoolItem) → Fits self.old xs → Accepts self.old self.new facts.old.items facts.new.items moment (Collect request) reply xs xs) }
        ensures inner { self.new.kept.inner ≡ self.old.kept.inner }
    {
        self.set_last(moment);
        self.serve(alloc, facts, moment)?;
        let reply = self.tell(alloc, request)?;
        Ok(reply)
    }
}

impl PoolCore {
    ghost use Rattle.mdb_pool.specs.Standing.{SameHome, Fits, Accepts, StandsFor, Answers};
    ghost use Rattle.mdb_pool.specs.Planning.{Passes};
    ghost use Rattle.mdb_log.specs.History.{Item, PoolItem};
    ghost use Rattle.mdb_log.specs.declared.step.Act.TheVariants.{Collect};

    /// The caller of a request asks how it stands. Refused as `TimeBack`, or as `UnknownRequest` where the request isn't open.
    pub fn collect(
        &mut self,
        alloc: Global,
        facts: &mut Vec<Fact>,
        moment: Moment,
        request: u32,
    ) -> Result<Reply, OutOfMemory>
        ensures home { OnOk result (SameHome self.old self.new) }
        ensures answers { IfOk result (λ reply. (h : List Item) → StandsFor self.old h → Answers self.old self.new facts.old.items facts.new.items (record { moment = moment; act = Collect request }) reply h) }
        ensures err_core { OnErr result (self.new ≡ self.old) }
        ensures err_facts { OnErr result (facts.new.items ≡ facts.old.items) }
        ensures passes { OnErr result (Passes self.old (record { moment = moment; act = Collect request })) }
    {
        let step = Step {
            moment,
            act: Act::Collect(request),
        };
        let answer = self.attempt(alloc, facts, &step);
        drop(step);
        answer
    }
}

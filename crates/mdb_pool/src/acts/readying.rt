//! A pool is marked ready.

ghost use Rattle.std.specs.Prelude.{◌≡◌, ◌++◌, OnOk, OnErr, IfOk, List};

use crate::kept::draft::Draft;
use crate::kept::status::Status;
use crate::pool_core::PoolCore;
use crate::{Act, Reply, Step};
use mdb_base::{Moment, OutOfMemory};
use mdb_events::{CmapEvent, Fact, PoolReadyEvent};
use std::alloc::Global;

impl Draft {
    ghost use Rattle.mdb_pool.specs.Acts.Changes.{readied_to, readied_facts};
    ghost use Rattle.mdb_pool.specs.Standing.{SameHome, Fits, Accepts, StandsFor, Answers};
    ghost use Rattle.mdb_log.specs.History.{Item, PoolItem};
    ghost use Rattle.mdb_log.specs.declared.step.Act.TheVariants.{Ready as ReadyAct};

    // A pool that is new or paused becomes ready.
    fn make_ready(&mut self, facts: &mut Vec<Fact>, moment: Moment) -> Result<(), OutOfMemory>
        ensures core { OnOk result (self.new ≡ readied_to self.old moment) }
        ensures facts { OnOk result (facts.new.items ≡ facts.old.items ++ readied_facts self.old) }
        ensures inner { self.new.kept.inner ≡ self.old.kept.inner }
    {
        self.set_last(moment);
        if self.status().is_ready() || self.status().is_closed() {
            return Ok(());
        }
        let address = self.address().clone()?;
        facts.push(Fact::Pool(
            self.number(),
            CmapEvent::PoolReady(PoolReadyEvent { address }),
        ))?;
        self.set_status(Status::Ready);
        Ok(())
    }

    // A new or paused pool becomes ready, and is then served. Whoever calls has tested the refusals.
    #[tactic(auto, unfolding(crate::specs::Now::queries))]
    pub(crate) fn accept_ready(
        &mut self,
        alloc: Global,
        facts: &mut Vec<Fact>,
        moment: Moment,
        pool: u32,
    ) -> Result<Reply, OutOfMemory>
        ensures home { OnOk result (SameHome self.old self.new) }
        ensures last { OnOk result (self.new.kept.last ≡ moment) }
        ensures accepts { IfOk result (λ reply. (xs : List PoolItem) → Fits self.old xs → Accepts self.old self.new facts.old.items facts.new.items moment (ReadyAct pool) reply xs xs) }
        ensures inner { self.new.kept.inner ≡ self.old.kept.inner }
    {
        self.make_ready(facts, moment)?;
        self.serve(alloc, facts, moment)?;
        Ok(Reply::Done)
    }
}

impl PoolCore {
    ghost use Rattle.mdb_pool.specs.Acts.Changes.{readied_to, readied_facts};
    ghost use Rattle.mdb_pool.specs.Standing.{SameHome, Fits, Accepts, StandsFor, Answers};
    ghost use Rattle.mdb_pool.specs.Planning.{Passes};
    ghost use Rattle.mdb_log.specs.History.{Item, PoolItem};
    ghost use Rattle.mdb_log.specs.declared.step.Act.TheVariants.{Ready as ReadyAct};

    /// The pool may be used from now on (CMAP, "Marking a Connection Pool as Ready"). A ready one stays ready, a closed one closed. Refused as
    /// `TimeBack`.
    pub fn mark_as_ready(
        &mut self,
        alloc: Global,
        facts: &mut Vec<Fact>,
        moment: Moment,
    ) -> Result<Reply, OutOfMemory>
        ensures home { OnOk result (SameHome self.old self.new) }
        ensures answers { IfOk result (λ reply. (h : List Item) → StandsFor self.old h → Answers self.old self.new facts.old.items facts.new.items (record { moment = moment; act = ReadyAct self.old.pool }) reply h) }
        ensures err_core { OnErr result (self.new ≡ self.old) }
        ensures err_facts { OnErr result (facts.new.items ≡ facts.old.items) }
        ensures passes { OnErr result (Passes self.old (record { moment = moment; act = ReadyAct self.old.pool })) }
    {
        let step = Step {
            moment,
            act: Act::Ready(self.draft.body.pool),
        };
        let answer = self.attempt(alloc, facts, &step);
        drop(step);
        answer
    }
}

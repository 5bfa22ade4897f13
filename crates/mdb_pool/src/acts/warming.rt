//! A warm request, which only fills a pool.

ghost use Rattle.std.specs.Prelude.{◌≡◌, ◌∷◌, OnOk, OnErr, IfOk, List, None, true};

use crate::kept::draft::Draft;
use crate::pool_core::PoolCore;
use crate::{Act, Reply, Step};
use mdb_base::{Moment, OutOfMemory, ServerAddress};
use mdb_events::Fact;
use std::alloc::Global;

impl Draft {
    ghost use Rattle.mdb_pool.specs.Kept.Values.{request_at};
    ghost use Rattle.mdb_pool.specs.Standing.{SameHome, Fits, Accepts, StandsFor, Answers};
    ghost use Rattle.mdb_log.specs.History.{Item, PoolItem, warmed};
    ghost use Rattle.mdb_log.specs.declared.step.Act.TheVariants.{Warm as WarmAct};

    // A new warm request is served. Whoever calls has tested the refusals.
    #[tactic(auto, unfolding(crate::specs::Now::queries))]
    pub(crate) fn accept_warm(
        &mut self,
        alloc: Global,
        facts: &mut Vec<Fact>,
        moment: Moment,
        request: u32,
    ) -> Result<Reply, OutOfMemory>
        requires { request_at self.old request ≡ None }
        ensures home { OnOk result (SameHome self.old self.new) }
        ensures last { OnOk result (self.new.kept.last ≡ moment) }
        ensures accepts { IfOk result (λ reply. (xs : List PoolItem) → Fits self.old xs → Accepts self.old self.new facts.old.items facts.new.items moment (WarmAct request self.old.address) reply xs (warmed request moment ∷ xs)) }
        ensures inner { self.new.kept.inner ≡ self.old.kept.inner }
    {
        self.enqueue(alloc, moment, request, true)?;
        self.turn_away(alloc, facts, moment, request, true)?;
        self.serve(alloc, facts, moment)?;
        let reply = self.tell(alloc, request)?;
        Ok(reply)
    }
}

impl PoolCore {
    ghost use Rattle.mdb_pool.specs.Now.{alone_now};
    ghost use Rattle.mdb_pool.specs.Kept.Values.{request_at};
    ghost use Rattle.mdb_pool.specs.Standing.{SameHome, Fits, Accepts, StandsFor, Answers};
    ghost use Rattle.mdb_pool.specs.Planning.{Passes};
    ghost use Rattle.mdb_log.specs.History.{Item, PoolItem, warmed};
    ghost use Rattle.mdb_log.specs.declared.step.Act.TheVariants.{Warm as WarmAct};

    /// One more connection is asked for where fewer live than the minimum (CMAP, "minPoolSize"): it waits only while as many are pending as may be, is
    /// over once its connection is established (`Filled`), and at once where none is wanted (`Warmed`). Refused as `TimeBack`, `UnknownServer`
    /// where the pool is closed, or `RequestKnown`. It ends at once where the pool is new or paused.
    #[tactic(auto, using(crate::proofs::Answered::NewParties::alone_can), unfolding(crate::specs::Now::queries))]
    pub fn warm(
        &mut self,
        alloc: Global,
        facts: &mut Vec<Fact>,
        moment: Moment,
        request: u32,
    ) -> Result<Reply, OutOfMemory>
        requires { alone_now self.old ≡ true }
        ensures home { OnOk result (SameHome self.old self.new) }
        ensures answers { IfOk result (λ reply. (h : List Item) → StandsFor self.old h → Answers self.old self.new facts.old.items facts.new.items (record { moment = moment; act = WarmAct request self.old.address }) reply h) }
        ensures err_core { OnErr result (self.new ≡ self.old) }
        ensures err_facts { OnErr result (facts.new.items ≡ facts.old.items) }
        ensures passes { OnErr result (Passes self.old (record { moment = moment; act = WarmAct request self.old.address })) }
    {
        if let Some(why) = self.draft.body.asking_refusal(moment, request) {
            return Ok(Reply::Refused(why));
        }
        let address = self.address().clone()?;
        let step = Step {
            moment,
            act: Act::Warm(request, address),
        };
        let answer = self.attempt(alloc, facts, &step);
        drop(step);
        answer
    }
}

//! The maintenance of a pool: it closes the available connections that have perished, and creates connections up to the minimum.

ghost use Rattle.std.specs.Prelude.{◌≡◌, OnOk, OnErr, IfOk, List};

use crate::kept::draft::Draft;
use crate::pool_core::PoolCore;
use crate::{Act, Reply, Step};
use mdb_base::{Moment, OutOfMemory, ServerAddress};
use mdb_events::Fact;
use std::alloc::Global;

impl Draft {
    ghost use Rattle.mdb_pool.specs.Standing.{SameHome, Fits, Accepts, StandsFor, Answers};
    ghost use Rattle.mdb_pool.specs.Acts.Doing.{SameNotes, Sweeps, Fills};
    ghost use Rattle.mdb_log.specs.History.{Item, PoolItem};
    ghost use Rattle.mdb_log.specs.declared.step.Act.TheVariants.{Maintain as MaintainAct};

    // Closes the available connections that have perished, those that came back first before the others.
    #[tactic(auto, using(crate::proofs::KeptInLittle::ConnectionsThatLive::perished_lives))]
    fn sweep(
        &mut self,
        alloc: Global,
        facts: &mut Vec<Fact>,
        moment: Moment,
    ) -> Result<(), OutOfMemory>
        ensures home { OnOk result (SameHome self.old self.new) }
        ensures last { OnOk result (self.new.kept.last ≡ self.old.kept.last) }
        ensures notes { OnOk result (SameNotes self.old self.new) }
        ensures sweeps { OnOk result ((xs : List PoolItem) → Fits self.old xs → Sweeps self.old self.new moment facts.old.items facts.new.items xs) }
        ensures inner { self.new.kept.inner ≡ self.old.kept.inner }
    {
        while let Some(connection) = self.first_perished(moment) {
            let Some(reason) = self.perished(moment, connection) else {
                unreachable!()
            };
            self.discard(alloc, facts, connection, reason)?;
        }
        Ok(())
    }

    // Creates connections in the background while there are too few.
    fn fill(
        &mut self,
        alloc: Global,
        facts: &mut Vec<Fact>,
        moment: Moment,
    ) -> Result<(), OutOfMemory>
        ensures home { OnOk result (SameHome self.old self.new) }
        ensures last { OnOk result (self.new.kept.last ≡ self.old.kept.last) }
        ensures notes { OnOk result (SameNotes self.old self.new) }
        ensures fills { OnOk result ((xs : List PoolItem) → Fits self.old xs → Fills self.old self.new moment facts.old.items facts.new.items xs) }
        ensures inner { self.new.kept.inner ≡ self.old.kept.inner }
    {
        while self.wants_filling() {
            self.spawn(alloc, facts, moment)?;
        }
        Ok(())
    }

    // The pool is maintained. Whoever calls has tested the refusals.
    #[tactic(auto, unfolding(crate::specs::Now::queries))]
    pub(crate) fn accept_maintain(
        &mut self,
        alloc: Global,
        facts: &mut Vec<Fact>,
        moment: Moment,
    ) -> Result<Reply, OutOfMemory>
        ensures home { OnOk result (SameHome self.old self.new) }
        ensures last { OnOk result (self.new.kept.last ≡ moment) }
        ensures accepts { IfOk result (λ reply. (xs : List PoolItem) → Fits self.old xs → Accepts self.old self.new facts.old.items facts.new.items moment (MaintainAct self.old.address) reply xs xs) }
        ensures inner { self.new.kept.inner ≡ self.old.kept.inner }
    {
        self.set_last(moment);
        self.sweep(alloc, facts, moment)?;
        self.fill(alloc, facts, moment)?;
        self.serve(alloc, facts, moment)?;
        Ok(Reply::Done)
    }
}

impl PoolCore {
    ghost use Rattle.mdb_pool.specs.Standing.{SameHome, Fits, Accepts, StandsFor, Answers};
    ghost use Rattle.mdb_pool.specs.Acts.Doing.{SameNotes, Sweeps, Fills};
    ghost use Rattle.mdb_pool.specs.Planning.{Passes};
    ghost use Rattle.mdb_log.specs.History.{Item, PoolItem};
    ghost use Rattle.mdb_log.specs.declared.step.Act.TheVariants.{Maintain as MaintainAct};

    /// Available connections that are stale or idle for too long are closed, and connections are created in the background while fewer live than
    /// the minimum and fewer are pending than may be (CMAP, "Background Thread"). Refused as `TimeBack`, or as `UnknownServer` where the pool is
    /// closed.
    #[tactic(auto, unfolding(crate::specs::Now::queries))]
    pub fn maintain(
        &mut self,
        alloc: Global,
        facts: &mut Vec<Fact>,
        moment: Moment,
    ) -> Result<Reply, OutOfMemory>
        ensures home { OnOk result (SameHome self.old self.new) }
        ensures answers { IfOk result (λ reply. (h : List Item) → StandsFor self.old h → Answers self.old self.new facts.old.items facts.new.items (record { moment = moment; act = MaintainAct self.old.address }) reply h) }
        ensures err_core { OnErr result (self.new ≡ self.old) }
        ensures err_facts { OnErr result (facts.new.items ≡ facts.old.items) }
        ensures passes { OnErr result (Passes self.old (record { moment = moment; act = MaintainAct self.old.address })) }
    {
        if let Some(why) = self.draft.body.home_refusal(moment) {
            return Ok(Reply::Refused(why));
        }
        let address = self.address().clone()?;
        let step = Step {
            moment,
            act: Act::Maintain(address),
        };
        let answer = self.attempt(alloc, facts, &step);
        drop(step);
        answer
    }
}

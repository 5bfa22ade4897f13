//! Callers that waited in the queue for too long.

ghost use Rattle.std.specs.Prelude.{◌≡◌, ◌++◌, ◌-◌, OnOk, OnErr, IfOk, List, false};

use crate::kept::draft::Draft;
use crate::kept::request::{Phase, Request};
use crate::pool_core::PoolCore;
use crate::{Act, Reply, Step};
use mdb_base::{Moment, OutOfMemory, ServerAddress};
use mdb_events::{End, Fact};
use std::alloc::Global;

impl Draft {
    ghost use Rattle.mdb_pool.specs.Kept.Values.{is_gone, request_at, first_overdue};
    ghost use Rattle.mdb_pool.specs.Acts.Changes.{ending, over_facts};
    ghost use Rattle.mdb_pool.specs.Standing.{SameHome, Fits, Accepts, StandsFor, Answers};
    ghost use Rattle.mdb_pool.specs.Acts.Doing.{SameNotes, Expires};
    ghost use Rattle.mdb_log.specs.History.{Item, PoolItem};
    ghost use Rattle.mdb_log.specs.declared.step.Act.TheVariants.{Expire as ExpireAct};
    ghost use Rattle.mdb_events.specs.declared.end.End.TheVariants.{TimedOut};

    // A queued request ends as its time is over.
    fn end_overdue(
        &mut self,
        alloc: Global,
        facts: &mut Vec<Fact>,
        moment: Moment,
        request: Request,
    ) -> Result<(), OutOfMemory>
        requires there { is_gone self.old.kept.settled (request_at self.old request.number) ≡ false }
        ensures core { OnOk result (self.new ≡ ending self.old request TimedOut) }
        ensures facts { OnOk result (facts.new.items ≡ facts.old.items ++ over_facts self.old request.number request.warm (moment - request.asked_at) TimedOut) }
        ensures inner { self.new.kept.inner ≡ self.old.kept.inner }
    {
        let (number, warm) = (request.number, request.warm);
        let waited = moment.saturating_sub(request.asked_at);
        self.enter_phase(alloc, request, Phase::Ended(End::TimedOut))?;
        self.push_end(facts, number, warm, waited, End::TimedOut)?;
        Ok(())
    }

    // The callers that have waited for too long end, in the order of the queue.
    fn end_all_overdue(
        &mut self,
        alloc: Global,
        facts: &mut Vec<Fact>,
        moment: Moment,
    ) -> Result<(), OutOfMemory>
        ensures home { OnOk result (SameHome self.old self.new) }
        ensures last { OnOk result (self.new.kept.last ≡ self.old.kept.last) }
        ensures notes { OnOk result (SameNotes self.old self.new) }
        ensures expires { OnOk result ((xs : List PoolItem) → Fits self.old xs → Expires self.old self.new moment facts.old.items facts.new.items xs) }
        ensures inner { self.new.kept.inner ≡ self.old.kept.inner }
    {
        while let Some(request) = self.first_overdue(moment) {
            // No other request has the number.
            let _requests = self.asked();
            let request = request.copy()?;
            self.end_overdue(alloc, facts, moment, request)?;
        }
        Ok(())
    }

    // The callers of the pool that have waited for too long end. Whoever calls has tested the refusals.
    #[tactic(auto, unfolding(crate::specs::Now::queries))]
    pub(crate) fn accept_expire(
        &mut self,
        alloc: Global,
        facts: &mut Vec<Fact>,
        moment: Moment,
    ) -> Result<Reply, OutOfMemory>
        ensures home { OnOk result (SameHome self.old self.new) }
        ensures last { OnOk result (self.new.kept.last ≡ moment) }
        ensures accepts { IfOk result (λ reply. (xs : List PoolItem) → Fits self.old xs → Accepts self.old self.new facts.old.items facts.new.items moment (ExpireAct self.old.address) reply xs xs) }
        ensures inner { self.new.kept.inner ≡ self.old.kept.inner }
    {
        self.set_last(moment);
        self.end_all_overdue(alloc, facts, moment)?;
        self.serve(alloc, facts, moment)?;
        Ok(Reply::Done)
    }
}

impl PoolCore {
    ghost use Rattle.mdb_pool.specs.Kept.Values.{first_overdue};
    ghost use Rattle.mdb_pool.specs.Acts.Changes.{ending, over_facts};
    ghost use Rattle.mdb_pool.specs.Standing.{SameHome, Fits, Accepts, StandsFor, Answers};
    ghost use Rattle.mdb_pool.specs.Acts.Doing.{SameNotes, Expires};
    ghost use Rattle.mdb_pool.specs.Planning.{Passes};
    ghost use Rattle.mdb_log.specs.History.{Item, PoolItem};
    ghost use Rattle.mdb_log.specs.declared.step.Act.TheVariants.{Expire as ExpireAct};
    ghost use Rattle.mdb_events.specs.declared.end.End.TheVariants.{TimedOut};

    /// The callers that wait in the queue and asked at least `max_wait` ago end as `TimedOut`, in the order of the queue (CMAP, "WaitQueue",
    /// `waitQueueTimeoutMS`); without a limit, or with one of 0, nobody does. No other step ends a caller by time. A warm request doesn't expire,
    /// nor does a caller whose connection is pending. Refused as `TimeBack`, or as `UnknownServer` where the pool is closed.
    #[tactic(auto, unfolding(crate::specs::Now::queries))]
    pub fn expire(
        &mut self,
        alloc: Global,
        facts: &mut Vec<Fact>,
        moment: Moment,
    ) -> Result<Reply, OutOfMemory>
        ensures home { OnOk result (SameHome self.old self.new) }
        ensures answers { IfOk result (λ reply. (h : List Item) → StandsFor self.old h → Answers self.old self.new facts.old.items facts.new.items (record { moment = moment; act = ExpireAct self.old.address }) reply h) }
        ensures err_core { OnErr result (self.new ≡ self.old) }
        ensures err_facts { OnErr result (facts.new.items ≡ facts.old.items) }
        ensures passes { OnErr result (Passes self.old (record { moment = moment; act = ExpireAct self.old.address })) }
    {
        if let Some(why) = self.draft.body.home_refusal(moment) {
            return Ok(Reply::Refused(why));
        }
        let address = self.address().clone()?;
        let step = Step {
            moment,
            act: Act::Expire(address),
        };
        let answer = self.attempt(alloc, facts, &step);
        drop(step);
        answer
    }
}

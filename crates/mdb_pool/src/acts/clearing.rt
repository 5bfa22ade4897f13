//! The connections of a pool become stale.

ghost use Rattle.std.specs.Prelude.{◌≡◌, ◌++◌, ◌∷◌, ◌-◌, [], OnOk, OnErr, IfOk, List, false};

use crate::kept::draft::Draft;
use crate::kept::request::{Phase, Request};
use crate::kept::status::Status;
use crate::pool_core::PoolCore;
use crate::{Act, Reply, Step, What};
use mdb_base::{Error, Moment, ObjectId, OutOfMemory};
use mdb_events::{Boxed, CmapEvent, End, Fact, PoolClearedEvent};
use std::alloc::Global;

impl Draft {
    ghost use Rattle.mdb_pool.specs.Acts.Changes.{ending, raising, over_facts};
    ghost use Rattle.mdb_pool.specs.Standing.{SameHome, Fits, Accepts, StandsFor, Answers};
    ghost use Rattle.mdb_pool.specs.Acts.Doing.{SameNotes, EndsQueue, Clears};
    ghost use Rattle.mdb_log.specs.History.{Item, PoolItem};
    ghost use Rattle.mdb_pool.specs.Kept.Values.{is_gone, request_at, is_ready_now, is_shut};
    ghost use Rattle.std.specs.Prelude.{true, None};
    ghost use Rattle.mdb_log.specs.declared.step.Act.TheVariants.{Clear as ClearAct};
    ghost use Rattle.mdb_events.specs.declared.fact.Fact.TheVariants.{Raised};
    ghost use Rattle.mdb_events.specs.declared.end.End.TheVariants.{Cleared};
    ghost use Rattle.mdb_pool_rules.specs.Facts.{cleared_fact};

    // A queued request ends.
    fn end_cleared(
        &mut self,
        alloc: Global,
        facts: &mut Vec<Fact>,
        moment: Moment,
        request: Request,
        cause: &Error,
    ) -> Result<(), OutOfMemory>
        requires there { is_gone self.old.kept.settled (request_at self.old request.number) ≡ false }
        ensures core { OnOk result (self.new ≡ ending self.old request (Cleared cause.now)) }
        ensures facts { OnOk result (facts.new.items ≡ facts.old.items ++ over_facts self.old request.number request.warm (moment - request.asked_at) (Cleared cause.now)) }
        ensures inner { self.new.kept.inner ≡ self.old.kept.inner }
    {
        let (number, warm) = (request.number, request.warm);
        let waited = moment.saturating_sub(request.asked_at);
        let kept = Boxed::copy_of(alloc, cause)?;
        self.enter_phase(alloc, request, Phase::Ended(End::Cleared(kept)))?;
        let told = Boxed::copy_of(alloc, cause)?;
        self.push_end(facts, number, warm, waited, End::Cleared(told))?;
        Ok(())
    }

    // All queued requests end, in their order.
    fn end_queue(
        &mut self,
        alloc: Global,
        facts: &mut Vec<Fact>,
        moment: Moment,
        cause: &Error,
    ) -> Result<(), OutOfMemory>
        ensures home { OnOk result (SameHome self.old self.new) }
        ensures last { OnOk result (self.new.kept.last ≡ self.old.kept.last) }
        ensures notes { OnOk result (SameNotes self.old self.new) }
        ensures ends { OnOk result ((xs : List PoolItem) → Fits self.old xs → EndsQueue self.old self.new moment (Cleared cause.now) facts.old.items facts.new.items xs) }
        ensures inner { self.new.kept.inner ≡ self.old.kept.inner }
    {
        while let Some(request) = self.first_queued() {
            // No other request has the number.
            let _requests = self.asked();
            let request = request.copy()?;
            self.end_cleared(alloc, facts, moment, request, cause)?;
        }
        Ok(())
    }

    // The pool, or a service of it, is cleared.
    fn raise(
        &mut self,
        alloc: Global,
        facts: &mut Vec<Fact>,
        moment: Moment,
        service: Option<ObjectId>,
        cause: &Error,
    ) -> Result<(), OutOfMemory>
        ensures core { OnOk result (self.new ≡ raising self.old moment service cause.now) }
        ensures facts { OnOk result (facts.new.items ≡ facts.old.items ++ Raised self.old.pool service cause.now ∷ []) }
        ensures inner { self.new.kept.inner ≡ self.old.kept.inner }
    {
        let told = Boxed::copy_of(alloc, cause)?;
        facts.push(Fact::Raised(self.number(), service, told))?;
        self.push_clear(alloc, service, cause.is_network_timeout())?;
        self.set_last(moment);
        if service.is_some() {
            return Ok(());
        }
        self.set_status(Status::Paused(cause.clone()?));
        Ok(())
    }

    // A clear is told of.
    fn push_cleared(
        &self,
        facts: &mut Vec<Fact>,
        service: Option<ObjectId>,
        cause: &Error,
    ) -> Result<(), OutOfMemory>
        ensures { OnOk result (facts.new.items ≡ facts.old.items ++ cleared_fact self.now.pool self.now.address service cause.now ∷ []) }
    {
        let address = self.address().clone()?;
        facts.push(Fact::Pool(
            self.number(),
            CmapEvent::PoolCleared(PoolClearedEvent {
                address,
                service_id: service,
                interrupt_in_use_connections: cause.is_network_timeout(),
            }),
        ))?;
        Ok(())
    }

    // A clear of a pool that is ready, as a whole: the queue ends.
    #[tactic(auto, unfolding(crate::specs::Now::queries))]
    fn clear_ready(
        &mut self,
        alloc: Global,
        facts: &mut Vec<Fact>,
        moment: Moment,
        cause: &Error,
    ) -> Result<(), OutOfMemory>
        requires { is_ready_now self.old.kept.status ≡ true }
        ensures home { OnOk result (SameHome self.old self.new) }
        ensures last { OnOk result (self.new.kept.last ≡ moment) }
        ensures moves { OnOk result ((xs : List PoolItem) → Fits self.old xs → Clears self.old self.new moment None cause.now facts.old.items facts.new.items xs) }
        ensures inner { self.new.kept.inner ≡ self.old.kept.inner }
    {
        self.raise(alloc, facts, moment, None, cause)?;
        self.push_cleared(facts, None, cause)?;
        self.end_queue(alloc, facts, moment, cause)?;
        Ok(())
    }

    // A clear of a pool that is not closed.
    #[tactic(auto, unfolding(crate::specs::Now::queries))]
    fn clear_open(
        &mut self,
        alloc: Global,
        facts: &mut Vec<Fact>,
        moment: Moment,
        service: Option<ObjectId>,
        cause: &Error,
    ) -> Result<(), OutOfMemory>
        requires { is_shut self.old.kept.status ≡ false }
        ensures home { OnOk result (SameHome self.old self.new) }
        ensures last { OnOk result (self.new.kept.last ≡ moment) }
        ensures moves { OnOk result ((xs : List PoolItem) → Fits self.old xs → Clears self.old self.new moment service cause.now facts.old.items facts.new.items xs) }
        ensures inner { self.new.kept.inner ≡ self.old.kept.inner }
    {
        if service.is_some() {
            self.raise(alloc, facts, moment, service, cause)?;
            self.push_cleared(facts, service, cause)?;
            return Ok(());
        }
        if self.status().is_ready() {
            self.clear_ready(alloc, facts, moment, cause)?;
            return Ok(());
        }
        self.raise(alloc, facts, moment, None, cause)?;
        Ok(())
    }

    // The pool, or a service of it, is cleared (CMAP, "Clearing a Connection Pool"). Whoever calls has tested the refusals.
    #[tactic(auto, unfolding(crate::specs::Now::queries))]
    pub(crate) fn accept_clear(
        &mut self,
        alloc: Global,
        facts: &mut Vec<Fact>,
        moment: Moment,
        pool: u32,
        service: Option<ObjectId>,
        cause: &Error,
    ) -> Result<Reply, OutOfMemory>
        ensures home { OnOk result (SameHome self.old self.new) }
        ensures last { OnOk result (self.new.kept.last ≡ moment) }
        ensures accepts { IfOk result (λ reply. (xs : List PoolItem) → Fits self.old xs → Accepts self.old self.new facts.old.items facts.new.items moment (ClearAct pool service cause.now) reply xs xs) }
        ensures inner { self.new.kept.inner ≡ self.old.kept.inner }
    {
        if self.status().is_closed() {
            self.set_last(moment);
            self.serve(alloc, facts, moment)?;
            return Ok(Reply::Done);
        }
        self.clear_open(alloc, facts, moment, service, cause)?;
        self.serve(alloc, facts, moment)?;
        Ok(Reply::Done)
    }
}

impl PoolCore {
    ghost use Rattle.mdb_pool.specs.Acts.Changes.{ending, raising, over_facts};
    ghost use Rattle.mdb_pool.specs.Standing.{SameHome, Fits, Accepts, StandsFor, Answers};
    ghost use Rattle.mdb_pool.specs.Acts.Doing.{SameNotes, EndsQueue, Clears};
    ghost use Rattle.mdb_pool.specs.Planning.{Passes};
    ghost use Rattle.mdb_log.specs.History.{Item, PoolItem};
    ghost use Rattle.mdb_pool.specs.Kept.Values.{is_ready_now, is_shut};
    ghost use Rattle.std.specs.Prelude.{true, None};
    ghost use Rattle.mdb_log.specs.declared.step.Act.TheVariants.{Clear as ClearAct};
    ghost use Rattle.mdb_events.specs.declared.fact.Fact.TheVariants.{Raised};
    ghost use Rattle.mdb_events.specs.declared.end.End.TheVariants.{Cleared};
    ghost use Rattle.mdb_pool_rules.specs.Facts.{cleared_fact};

    /// The connections of the pool, or those of a service where it is load balanced, become stale; a normal pool is paused, and its queued requests
    /// end with the cause (CMAP, "Clearing a Connection Pool"). A closed pool stays as it is. Refused as `TimeBack`, as `WrongMode` where a normal
    /// pool is given a service or a load-balanced one none, or as `Exhausted` where the generation would pass its limit.
    pub fn clear(
        &mut self,
        alloc: Global,
        facts: &mut Vec<Fact>,
        moment: Moment,
        service: Option<ObjectId>,
        cause: Error,
    ) -> Result<Reply, OutOfMemory>
        ensures home { OnOk result (SameHome self.old self.new) }
        ensures answers { IfOk result (λ reply. (h : List Item) → StandsFor self.old h → Answers self.old self.new facts.old.items facts.new.items (record { moment = moment; act = ClearAct self.old.pool service cause }) reply h) }
        ensures err_core { OnErr result (self.new ≡ self.old) }
        ensures err_facts { OnErr result (facts.new.items ≡ facts.old.items) }
        ensures passes { OnErr result (Passes self.old (record { moment = moment; act = ClearAct self.old.pool service cause })) }
    {
        if let Some(why) = self.draft.body.clearing_refusal(moment, service) {
            return Ok(Reply::Refused(why));
        }
        let cause = Boxed::new(alloc, cause)?;
        let step = Step {
            moment,
            act: Act::Clear(self.draft.body.pool, service, cause),
        };
        let answer = self.attempt(alloc, facts, &step);
        drop(step);
        answer
    }
}

//! A pool is closed.

ghost use Rattle.std.specs.Prelude.{◌≡◌, ◌++◌, ◌∷◌, [], not, OnOk, IfOk, List, filter, OnErr};
ghost use Rattle.std.specs.List.{filter_map};
ghost use Rattle.mdb_pool.specs.Kept.Places.{is_available, is_pending};
ghost use Rattle.mdb_pool.specs.Kept.Values.{with_connections, with_requests};

use crate::kept::draft::Draft;
use crate::kept::request::{Phase, Request};
use crate::kept::status::Status;
use crate::pool_core::PoolCore;
use crate::{Act, Reply, Step};
use mdb_base::{Moment, OutOfMemory};
use mdb_events::{CmapEvent, ConnectionClosedReason, End, Fact, PoolClosedEvent};
use std::alloc::Global;

impl Draft {
    ghost use Rattle.mdb_pool.specs.Acts.Changes.{closing, shut_facts, off_facts, ended_one, available_ones, pending_ones, unserved_ones};
    ghost use Rattle.mdb_pool.specs.Acts.Ended.{ended_all};
    ghost use Rattle.mdb_pool.specs.Standing.{SameHome, Fits, Accepts};
    ghost use Rattle.mdb_log.specs.History.{PoolItem};
    ghost use Rattle.mdb_pool.specs.Kept.Values.{request_at, unserved_in};
    ghost use Rattle.mdb_log.specs.declared.step.Act.TheVariants.{Close};
    ghost use Rattle.mdb_pool_rules.specs.Facts.{pool_closed_fact};

    // The available connections are closed.
    fn push_available(&self, facts: &mut Vec<Fact>) -> Result<(), OutOfMemory>
        ensures { OnOk result (facts.new.items ≡ facts.old.items ++ shut_facts self.now (available_ones self.now)) }
    {
        let mut next = self.first_available();
        while let Some(x) = next {
            self.push_close(facts, x, ConnectionClosedReason::PoolClosed)?;
            next = self.next_available(x.id);
        }
        Ok(())
    }

    // The pending connections are closed.
    fn push_pending(&self, facts: &mut Vec<Fact>) -> Result<(), OutOfMemory>
        ensures { OnOk result (facts.new.items ≡ facts.old.items ++ shut_facts self.now (pending_ones self.now)) }
    {
        let mut next = self.first_pending();
        while let Some(x) = next {
            self.push_close(facts, x, ConnectionClosedReason::PoolClosed)?;
            next = self.next_pending(x.id);
        }
        Ok(())
    }

    // The end of the request is told where nothing was handed to it.
    fn push_off(
        &self,
        facts: &mut Vec<Fact>,
        moment: Moment,
        request: &Request,
    ) -> Result<(), OutOfMemory>
        ensures { OnOk result (facts.new.items ≡ facts.old.items ++ off_facts self.now moment (filter (λ q. unserved_in self.now q.phase) (request.now ∷ []))) }
    {
        if !self.is_unserved(request) {
            return Ok(());
        }
        let waited = moment.saturating_sub(request.asked_at);
        self.push_end(facts, request.number, request.warm, waited, End::Closed)?;
        Ok(())
    }

    // So is the end of the request that has the number.
    fn push_numbered(
        &self,
        facts: &mut Vec<Fact>,
        moment: Moment,
        number: u32,
    ) -> Result<(), OutOfMemory>
        ensures { OnOk result (facts.new.items ≡ facts.old.items ++ off_facts self.now moment (filter (λ q. unserved_in self.now q.phase) (filter_map (request_at self.now) (number ∷ [])))) }
    {
        match self.request(number) {
            Some(request) => self.push_off(facts, moment, request),
            None => Ok(()),
        }
    }

    // So are the ends of the requests with these numbers.
    fn push_unserved(
        &self,
        facts: &mut Vec<Fact>,
        moment: Moment,
        numbers: &[u32],
    ) -> Result<(), OutOfMemory>
        ensures { OnOk result (facts.new.items ≡ facts.old.items ++ off_facts self.now moment (filter (λ q. unserved_in self.now q.phase) (filter_map (request_at self.now) numbers.now))) }
    {
        for number in numbers {
            self.push_numbered(facts, moment, *number)?;
        }
        Ok(())
    }

    // The request ends where nothing was handed to it.
    fn end_unserved(&mut self, alloc: Global, number: u32) -> Result<(), OutOfMemory>
        ensures core { OnOk result (self.new ≡ with_requests self.old (ended_one self.old number)) }
        ensures inner { self.new.kept.inner ≡ self.old.kept.inner }
    {
        // No other request has the number.
        let _requests = self.asked();
        let Some(request) = self.request(number) else {
            return Ok(());
        };
        if !self.is_unserved(request) {
            return Ok(());
        }
        let ended = Request {
            number,
            asked_at: request.asked_at,
            warm: request.warm,
            took: request.took,
            phase: Phase::Ended(End::Closed),
        };
        self.replace_request(alloc, ended)
    }

    // So do the requests with these numbers.
    fn end_all_unserved(&mut self, alloc: Global, numbers: &[u32]) -> Result<(), OutOfMemory>
        ensures core { OnOk result (self.new ≡ with_requests self.old (ended_all self.old numbers.now)) }
        ensures inner { self.new.kept.inner ≡ self.old.kept.inner }
    {
        for number in numbers {
            self.end_unserved(alloc, *number)?;
        }
        Ok(())
    }

    // The available and the pending connections go.
    fn drop_connections(&mut self, alloc: Global) -> Result<(), OutOfMemory>
        ensures core { OnOk result (self.new ≡ with_connections self.old (filter (λ x. not (is_pending x.place)) (filter (λ x. not (is_available x.place)) self.old.kept.connections))) }
        ensures inner { self.new.kept.inner ≡ self.old.kept.inner }
    {
        self.body.connections.close(alloc)
    }

    // A pool is closed, and the requests with these numbers end that nothing was handed to.
    #[tactic(auto, using(crate::proofs::Listed::Beside::stay_ones))]
    fn close_with(
        &mut self,
        alloc: Global,
        facts: &mut Vec<Fact>,
        moment: Moment,
        numbers: &[u32],
    ) -> Result<(), OutOfMemory>
        ensures core { OnOk result (self.new ≡ with_requests (closing self.old moment) (ended_all self.old numbers.now)) }
        ensures facts { OnOk result (facts.new.items ≡ (((facts.old.items ++ shut_facts self.old (available_ones self.old)) ++ shut_facts self.old (pending_ones self.old)) ++ off_facts self.old moment (filter (λ q. unserved_in self.old q.phase) (filter_map (request_at self.old) numbers.now))) ++ pool_closed_fact self.old.pool self.old.address ∷ []) }
        ensures inner { self.new.kept.inner ≡ self.old.kept.inner }
    {
        self.push_available(facts)?;
        self.push_pending(facts)?;
        self.push_unserved(facts, moment, numbers)?;
        let address = self.address().clone()?;
        facts.push(Fact::Pool(
            self.number(),
            CmapEvent::PoolClosed(PoolClosedEvent { address }),
        ))?;
        self.end_all_unserved(alloc, numbers)?;
        self.drop_connections(alloc)?;
        self.set_status(Status::Closed);
        self.set_last(moment);
        Ok(())
    }

    // A pool that is not closed is.
    #[tactic(auto, unfolding(crate::specs::Now::queries))]
    fn close_open(
        &mut self,
        alloc: Global,
        facts: &mut Vec<Fact>,
        moment: Moment,
    ) -> Result<(), OutOfMemory>
        ensures home { OnOk result (SameHome self.old self.new) }
        ensures last { OnOk result (self.new.kept.last ≡ moment) }
        ensures core { OnOk result ((xs : List PoolItem) → Fits self.old xs → self.new ≡ closing self.old moment) }
        ensures facts { OnOk result ((xs : List PoolItem) → Fits self.old xs → facts.new.items ≡ (((facts.old.items ++ shut_facts self.old (available_ones self.old)) ++ shut_facts self.old (pending_ones self.old)) ++ off_facts self.old moment (unserved_ones self.old)) ++ pool_closed_fact self.old.pool self.old.address ∷ []) }
        ensures inner { self.new.kept.inner ≡ self.old.kept.inner }
    {
        let numbers = self.unserved_numbers(alloc)?;
        self.close_with(alloc, facts, moment, numbers.as_slice())?;
        Ok(())
    }

    // The pool is closed (CMAP, "Closing a Connection Pool"). Whoever calls has tested the refusals.
    #[tactic(auto, unfolding(crate::specs::Now::queries))]
    pub(crate) fn accept_close(
        &mut self,
        alloc: Global,
        facts: &mut Vec<Fact>,
        moment: Moment,
        pool: u32,
    ) -> Result<Reply, OutOfMemory>
        ensures home { OnOk result (SameHome self.old self.new) }
        ensures last { OnOk result (self.new.kept.last ≡ moment) }
        ensures accepts { IfOk result (λ reply. (xs : List PoolItem) → Fits self.old xs → Accepts self.old self.new facts.old.items facts.new.items moment (Close pool) reply xs xs) }
        ensures inner { self.new.kept.inner ≡ self.old.kept.inner }
    {
        if self.status().is_closed() {
            self.set_last(moment);
            self.serve(alloc, facts, moment)?;
            return Ok(Reply::Done);
        }
        self.close_open(alloc, facts, moment)?;
        self.serve(alloc, facts, moment)?;
        Ok(Reply::Done)
    }
}

impl PoolCore {
    ghost use Rattle.mdb_pool.specs.Acts.Changes.{closing, shut_facts, off_facts, available_ones, pending_ones, unserved_ones};
    ghost use Rattle.mdb_pool.specs.Standing.{SameHome, Fits, Accepts, StandsFor, Answers};
    ghost use Rattle.mdb_pool.specs.Planning.{Passes};
    ghost use Rattle.mdb_log.specs.History.{Item, PoolItem};
    ghost use Rattle.mdb_pool.specs.Kept.Values.{unserved_in};
    ghost use Rattle.mdb_log.specs.declared.step.Act.TheVariants.{Close};
    ghost use Rattle.mdb_pool_rules.specs.Facts.{pool_closed_fact};

    /// The pool is closed for good: its available and pending connections are closed, its held ones as they come back, and the requests end that
    /// nothing was handed to (CMAP, "Closing a Connection Pool"). A closed pool stays as it is. Refused as `TimeBack`.
    pub fn close(
        &mut self,
        alloc: Global,
        facts: &mut Vec<Fact>,
        moment: Moment,
    ) -> Result<Reply, OutOfMemory>
        ensures home { OnOk result (SameHome self.old self.new) }
        ensures answers { IfOk result (λ reply. (h : List Item) → StandsFor self.old h → Answers self.old self.new facts.old.items facts.new.items (record { moment = moment; act = Close self.old.pool }) reply h) }
        ensures err_core { OnErr result (self.new ≡ self.old) }
        ensures err_facts { OnErr result (facts.new.items ≡ facts.old.items) }
        ensures passes { OnErr result (Passes self.old (record { moment = moment; act = Close self.old.pool })) }
    {
        let step = Step {
            moment,
            act: Act::Close(self.draft.body.pool),
        };
        let answer = self.attempt(alloc, facts, &step);
        drop(step);
        answer
    }
}

//! The caller of a request of a pool gives up.

ghost use Rattle.std.specs.Prelude.{◌≡◌, ◌∷◌, OnOk, OnErr, IfOk, List, true, false, Some};

use crate::acts::coming_back::CheckIn;
use crate::kept::clears::used_as;
use crate::kept::connection::Connection;
use crate::kept::draft::Draft;
use crate::kept::request::Request;
use crate::pool_core::PoolCore;
use crate::{Act, Reply, Step, Use};
use mdb_base::{Moment, OutOfMemory};
use mdb_events::Fact;
use std::alloc::Global;

impl Draft {
    ghost use Rattle.mdb_log.specs.Connections.{has};
    ghost use Rattle.mdb_pool.specs.Kept.Values.{request_at, is_ended_at, is_asked_at, held_connection};
    ghost use Rattle.mdb_pool.specs.Now.{is_open_now};
    ghost use Rattle.mdb_pool.specs.Standing.{SameHome, Fits, Accepts, StandsFor, Answers};
    ghost use Rattle.mdb_log.specs.History.{Item, PoolItem, gave_up};
    ghost use Rattle.mdb_log.specs.declared.step.Act.TheVariants.{GiveUp};

    // An ended request is told how it ended.
    #[tactic(auto, unfolding(crate::specs::Now::queries))]
    fn give_up_late(
        &mut self,
        alloc: Global,
        facts: &mut Vec<Fact>,
        moment: Moment,
        request: u32,
    ) -> Result<Reply, OutOfMemory>
        requires ended { is_ended_at (request_at self.old request) ≡ true }
        requires open { has request self.old.kept.settled ≡ false }
        ensures home { OnOk result (SameHome self.old self.new) }
        ensures last { OnOk result (self.new.kept.last ≡ moment) }
        ensures accepts { IfOk result (λ reply. (xs : List PoolItem) → Fits self.old xs → Accepts self.old self.new facts.old.items facts.new.items moment (GiveUp request) reply xs (gave_up request ∷ xs)) }
        ensures inner { self.new.kept.inner ≡ self.old.kept.inner }
    {
        let reply = self.outcome(request)?;
        self.set_last(moment);
        self.settle(alloc, request)?;
        self.serve(alloc, facts, moment)?;
        Ok(reply)
    }

    // A request whose connection is held is given up.
    #[tactic(auto, using(crate::proofs::KeptInLittle::ConnectionsThatLive::party_lives), unfolding(crate::specs::Now::queries))]
    fn give_up_held(
        &mut self,
        alloc: Global,
        facts: &mut Vec<Fact>,
        moment: Moment,
        connection: Connection,
        request: Request,
    ) -> Result<Reply, OutOfMemory>
        requires held { held_connection self.old request.number ≡ Some connection }
        requires asker { request_at self.old request.number ≡ Some request }
        requires open { is_ended_at (request_at self.old request.number) ≡ false }
        requires asked { is_asked_at (request_at self.old request.number) ≡ true }
        requires unsettled { has request.number self.old.kept.settled ≡ false }
        ensures home { OnOk result (SameHome self.old self.new) }
        ensures last { OnOk result (self.new.kept.last ≡ moment) }
        ensures accepts { IfOk result (λ reply. (xs : List PoolItem) → Fits self.old xs → Accepts self.old self.new facts.old.items facts.new.items moment (GiveUp request.number) reply xs (gave_up request.number ∷ xs)) }
        ensures inner { self.new.kept.inner ≡ self.old.kept.inner }
    {
        let back = used_as(connection, Use::Ok);
        if 0 < back.pins {
            self.leave_to_pin(alloc, facts, moment, back, request)?;
            self.serve(alloc, facts, moment)?;
            return Ok(Reply::Done);
        }
        let reason = self.reason_now(back);
        let check_in = CheckIn {
            connection: back,
            reason,
        };
        self.hand_back(alloc, facts, moment, check_in, request)?;
        self.serve(alloc, facts, moment)?;
        Ok(Reply::Done)
    }

    // The caller of a request no longer wants its connection. Whoever calls has tested the refusals.
    #[tactic(auto, unfolding(crate::specs::Now::queries))]
    pub(crate) fn accept_give_up(
        &mut self,
        alloc: Global,
        facts: &mut Vec<Fact>,
        moment: Moment,
        request: u32,
    ) -> Result<Reply, OutOfMemory>
        requires { is_open_now self.old request ≡ true }
        ensures home { OnOk result (SameHome self.old self.new) }
        ensures last { OnOk result (self.new.kept.last ≡ moment) }
        ensures accepts { IfOk result (λ reply. (xs : List PoolItem) → Fits self.old xs → Accepts self.old self.new facts.old.items facts.new.items moment (GiveUp request) reply xs (gave_up request ∷ xs)) }
        ensures inner { self.new.kept.inner ≡ self.old.kept.inner }
    {
        if self.is_ended(request) {
            let reply = self.give_up_late(alloc, facts, moment, request)?;
            return Ok(reply);
        }
        let Some(asker) = self.request(request) else {
            unreachable!()
        };
        let asker = asker.copy()?;
        if let Some(connection) = self.held_connection(request) {
            let reply = self.give_up_held(alloc, facts, moment, connection, asker)?;
            return Ok(reply);
        }
        if let Some(connection) = self.pending_connection(request) {
            self.leave(alloc, facts, moment, connection, asker)?;
            self.serve(alloc, facts, moment)?;
            return Ok(Reply::Done);
        }
        self.quit(alloc, facts, moment, asker)?;
        self.serve(alloc, facts, moment)?;
        Ok(Reply::Done)
    }
}

impl PoolCore {
    ghost use Rattle.mdb_pool.specs.Kept.Values.{request_at, is_ended_at, is_asked_at, held_connection};
    ghost use Rattle.mdb_pool.specs.Standing.{SameHome, Fits, Accepts, StandsFor, Answers};
    ghost use Rattle.mdb_pool.specs.Planning.{Passes};
    ghost use Rattle.mdb_log.specs.History.{Item, PoolItem, gave_up};
    ghost use Rattle.mdb_log.specs.declared.step.Act.TheVariants.{GiveUp};

    /// The caller of a request no longer wants its connection. Refused as `TimeBack`, or as `UnknownRequest` where the request isn't open. A request
    /// that ended before is told how.
    pub fn give_up(
        &mut self,
        alloc: Global,
        facts: &mut Vec<Fact>,
        moment: Moment,
        request: u32,
    ) -> Result<Reply, OutOfMemory>
        ensures home { OnOk result (SameHome self.old self.new) }
        ensures answers { IfOk result (λ reply. (h : List Item) → StandsFor self.old h → Answers self.old self.new facts.old.items facts.new.items (record { moment = moment; act = GiveUp request }) reply h) }
        ensures err_core { OnErr result (self.new ≡ self.old) }
        ensures err_facts { OnErr result (facts.new.items ≡ facts.old.items) }
        ensures passes { OnErr result (Passes self.old (record { moment = moment; act = GiveUp request })) }
    {
        let step = Step {
            moment,
            act: Act::GiveUp(request),
        };
        let answer = self.attempt(alloc, facts, &step);
        drop(step);
        answer
    }
}

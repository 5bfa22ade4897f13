//! A caller asks a pool for a connection.

ghost use Rattle.std.specs.Prelude.{◌≡◌, ◌∷◌, ◌++◌, [], OnOk, OnErr, IfOk, List, None, true};

use crate::kept::connection::Connection;
use crate::kept::draft::Draft;
use crate::kept::request::{Phase, Request};
use crate::pool_core::PoolCore;
use crate::{Act, Reply, Step};
use mdb_base::{Moment, OutOfMemory, ServerAddress};
use mdb_events::Fact;
use std::alloc::Global;

impl Draft {
    ghost use Rattle.mdb_pool.specs.Acts.Changes.{granting_at_once};
    ghost use Rattle.mdb_pool_rules.specs.Facts.{started_fact, checked_out_fact};
    ghost use Rattle.mdb_pool.specs.Kept.Values.{request_at, ready_connection};
    ghost use Rattle.mdb_events.specs.declared.fact.Fact.TheVariants.{Granted};
    ghost use Rattle.mdb_log.specs.declared.reply.Reply.TheVariants.{Pooled};
    ghost use Rattle.mdb_pool.specs.Standing.{SameHome, Fits, Accepts, StandsFor, Answers};
    ghost use Rattle.mdb_log.specs.History.{Item, PoolItem, asked};
    ghost use Rattle.mdb_log.specs.declared.step.Act.TheVariants.{Request as RequestAct};

    // The available connection that a new caller gets at once.
    #[tactic(auto, using(crate::proofs::KeptInLittle::ConnectionsThatLive::last_lives))]
    fn ready_connection(&self, moment: Moment) -> Option<Connection>
        ensures { result ≡ ready_connection self.now moment }
    {
        if !self.status().is_ready() || self.first_queued().is_some() {
            return None;
        }
        let Some(connection) = self.last_available() else {
            return None;
        };
        if self.perished(moment, connection).is_some() {
            return None;
        }
        Some(connection)
    }

    // A new caller gets an available connection at once, and is told so.
    fn grant_at_once(
        &mut self,
        alloc: Global,
        facts: &mut Vec<Fact>,
        moment: Moment,
        request: u32,
        connection: Connection,
    ) -> Result<Reply, OutOfMemory>
        requires { request_at self.old request ≡ None }
        ensures core { OnOk result (self.new ≡ granting_at_once self.old moment request connection) }
        ensures facts { OnOk result (facts.new.items ≡ facts.old.items ++ started_fact self.old.pool self.old.address ∷ Granted request self.old.pool connection.id ∷ checked_out_fact self.old.pool self.old.address connection.id 0 ∷ []) }
        ensures reply { IfOk result (λ reply. reply ≡ Pooled self.old.pool connection.id) }
        ensures inner { self.new.kept.inner ≡ self.old.kept.inner }
    {
        self.push_started(facts)?;
        self.set_last(moment);
        self.put_request(
            alloc,
            Request {
                number: request,
                asked_at: moment,
                warm: false,
                took: false,
                phase: Phase::Given(connection.id),
            },
        )?;
        self.hand(alloc, facts, connection, request, 0)?;
        self.settle(alloc, request)?;
        Ok(Reply::Pooled(self.number(), connection.id))
    }

    // A new caller is served. Whoever calls has tested the refusals.
    #[tactic(auto, unfolding(crate::specs::Now::queries))]
    pub(crate) fn accept_request(
        &mut self,
        alloc: Global,
        facts: &mut Vec<Fact>,
        moment: Moment,
        request: u32,
    ) -> Result<Reply, OutOfMemory>
        requires { request_at self.old request ≡ None }
        ensures home { OnOk result (SameHome self.old self.new) }
        ensures last { OnOk result (self.new.kept.last ≡ moment) }
        ensures accepts { IfOk result (λ reply. (xs : List PoolItem) → Fits self.old xs → Accepts self.old self.new facts.old.items facts.new.items moment (RequestAct request self.old.address) reply xs (asked request moment ∷ xs)) }
        ensures inner { self.new.kept.inner ≡ self.old.kept.inner }
    {
        if let Some(connection) = self.ready_connection(moment) {
            let reply = self.grant_at_once(alloc, facts, moment, request, connection)?;
            return Ok(reply);
        }
        self.ask(alloc, facts, moment, request)?;
        self.turn_away(alloc, facts, moment, request, false)?;
        self.serve(alloc, facts, moment)?;
        let reply = self.tell(alloc, request)?;
        Ok(reply)
    }
}

impl PoolCore {
    ghost use Rattle.mdb_pool.specs.Now.{alone_now};
    ghost use Rattle.mdb_pool.specs.Kept.Values.{request_at};
    ghost use Rattle.mdb_pool.specs.Standing.{SameHome, Fits, Accepts, StandsFor, Answers};
    ghost use Rattle.mdb_pool.specs.Planning.{Passes};
    ghost use Rattle.mdb_log.specs.History.{Item, PoolItem, asked};
    ghost use Rattle.mdb_log.specs.declared.step.Act.TheVariants.{Request as RequestAct};

    /// A caller asks for a connection. Refused as `TimeBack`, `UnknownServer` where the pool is closed, or `RequestKnown`. It ends at
    /// once where the pool is new or paused (CMAP, "Checking Out a Connection").
    #[tactic(auto, using(crate::proofs::Answered::NewParties::alone_can), unfolding(crate::specs::Now::queries))]
    pub fn request(
        &mut self,
        alloc: Global,
        facts: &mut Vec<Fact>,
        moment: Moment,
        request: u32,
    ) -> Result<Reply, OutOfMemory>
        requires { alone_now self.old ≡ true }
        ensures home { OnOk result (SameHome self.old self.new) }
        ensures answers { IfOk result (λ reply. (h : List Item) → StandsFor self.old h → Answers self.old self.new facts.old.items facts.new.items (record { moment = moment; act = RequestAct request self.old.address }) reply h) }
        ensures err_core { OnErr result (self.new ≡ self.old) }
        ensures err_facts { OnErr result (facts.new.items ≡ facts.old.items) }
        ensures passes { OnErr result (Passes self.old (record { moment = moment; act = RequestAct request self.old.address })) }
    {
        if let Some(why) = self.draft.body.asking_refusal(moment, request) {
            return Ok(Reply::Refused(why));
        }
        let address = self.address().clone()?;
        let step = Step {
            moment,
            act: Act::Request(request, address),
        };
        let answer = self.attempt(alloc, facts, &step);
        drop(step);
        answer
    }
}

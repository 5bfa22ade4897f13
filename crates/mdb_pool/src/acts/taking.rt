//! A new party takes a pinned connection.

ghost use Rattle.std.specs.Prelude.{◌≡◌, ◌∷◌, OnOk, OnErr, IfOk, List, true, false, is_some, nat_lt};

use crate::kept::connection::{Connection, Place};
use crate::kept::draft::Draft;
use crate::kept::request::{Phase, Request};
use crate::pool_core::PoolCore;
use crate::{Act, Reply, Step};
use mdb_base::{Moment, OutOfMemory};
use mdb_events::Fact;
use std::alloc::Global;

impl Draft {
    ghost use Rattle.mdb_pool.specs.Acts.Changes.{taking};
    ghost use Rattle.mdb_pool.specs.Kept.Values.{connection_at, request_at, pins_at, is_held_at};
    ghost use Rattle.mdb_pool.specs.Standing.{SameHome, Fits, Accepts, StandsFor, Answers};
    ghost use Rattle.mdb_log.specs.History.{Item, PoolItem, taken};
    ghost use Rattle.mdb_log.specs.declared.step.Act.TheVariants.{Take};

    // The party gets the connection from its pin.
    #[tactic(auto, using(crate::proofs::Listed::Beside::stays_out))]
    fn hand_pinned(
        &mut self,
        alloc: Global,
        moment: Moment,
        party: u32,
        connection: Connection,
    ) -> Result<(), OutOfMemory>
        requires { is_some (request_at self.old party) ≡ false }
        ensures core { OnOk result (self.new ≡ taking self.old moment party connection) }
        ensures inner { self.new.kept.inner ≡ self.old.kept.inner }
    {
        let timeouts = self.timeouts();
        self.set_last(moment);
        self.replace_connection(
            alloc,
            Connection {
                place: Place::Held,
                holder: Some(party),
                timeouts,
                ..connection
            },
        )?;
        self.put_request(
            alloc,
            Request {
                number: party,
                asked_at: 0,
                warm: false,
                took: true,
                phase: Phase::Given(connection.id),
            },
        )?;
        Ok(())
    }

    // A new party takes a connection from its pin. Whoever calls has tested the refusals.
    #[tactic(auto, unfolding(crate::specs::Now::queries))]
    pub(crate) fn accept_take(
        &mut self,
        alloc: Global,
        facts: &mut Vec<Fact>,
        moment: Moment,
        party: u32,
        id: u32,
    ) -> Result<Reply, OutOfMemory>
        requires unknown { is_some (request_at self.old party) ≡ false }
        requires pinned { nat_lt 0 (pins_at (connection_at self.old id)) ≡ true }
        requires free { is_held_at (connection_at self.old id) ≡ false }
        ensures home { OnOk result (SameHome self.old self.new) }
        ensures last { OnOk result (self.new.kept.last ≡ moment) }
        ensures accepts { IfOk result (λ reply. (xs : List PoolItem) → Fits self.old xs → Accepts self.old self.new facts.old.items facts.new.items moment (Take party self.old.pool id) reply xs (taken party id ∷ xs)) }
        ensures inner { self.new.kept.inner ≡ self.old.kept.inner }
    {
        let Some(connection) = self.connection(id).copied() else {
            unreachable!()
        };
        self.hand_pinned(alloc, moment, party, connection)?;
        self.serve(alloc, facts, moment)?;
        Ok(Reply::Pooled(self.number(), id))
    }
}

impl PoolCore {
    ghost use Rattle.mdb_pool.specs.Now.{alone_now};
    ghost use Rattle.mdb_pool.specs.Acts.Changes.{taking};
    ghost use Rattle.mdb_pool.specs.Kept.Values.{connection_at, request_at, pins_at, is_held_at};
    ghost use Rattle.mdb_pool.specs.Standing.{SameHome, Fits, Accepts, StandsFor, Answers};
    ghost use Rattle.mdb_pool.specs.Planning.{Passes};
    ghost use Rattle.mdb_log.specs.History.{Item, PoolItem, taken};
    ghost use Rattle.mdb_log.specs.declared.step.Act.TheVariants.{Take};

    /// A new party takes a connection that is at its pin. Refused as `TimeBack`, as `RequestKnown` where the number was used, as `Unpinned` where no
    /// pin stands, or as `PinInUse` where the connection is held.
    #[tactic(auto, using(crate::proofs::Answered::NewParties::alone_can))]
    pub fn take_connection(
        &mut self,
        alloc: Global,
        facts: &mut Vec<Fact>,
        moment: Moment,
        party: u32,
        id: u32,
    ) -> Result<Reply, OutOfMemory>
        requires { alone_now self.old ≡ true }
        ensures home { OnOk result (SameHome self.old self.new) }
        ensures answers { IfOk result (λ reply. (h : List Item) → StandsFor self.old h → Answers self.old self.new facts.old.items facts.new.items (record { moment = moment; act = Take party self.old.pool id }) reply h) }
        ensures err_core { OnErr result (self.new ≡ self.old) }
        ensures err_facts { OnErr result (facts.new.items ≡ facts.old.items) }
        ensures passes { OnErr result (Passes self.old (record { moment = moment; act = Take party self.old.pool id })) }
    {
        let step = Step {
            moment,
            act: Act::Take(party, self.draft.body.pool, id),
        };
        let answer = self.attempt(alloc, facts, &step);
        drop(step);
        answer
    }
}

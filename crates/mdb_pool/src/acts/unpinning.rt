//! A pinned connection loses a pin.

ghost use Rattle.std.specs.Prelude.{◌≡◌, ◌∷◌, ◌++◌, OnOk, OnErr, IfOk, List, true, nat_lt, is_some};

use crate::kept::connection::Connection;
use crate::kept::draft::Draft;
use crate::pool_core::PoolCore;
use crate::{Act, Reply, Step};
use mdb_base::{Moment, OutOfMemory};
use mdb_events::{ConnectionClosedReason, Fact};
use std::alloc::Global;

impl Draft {
    ghost use Rattle.mdb_pool.specs.Acts.Changes.{unpinned_once, unpinning, pin_ending, back_facts};
    ghost use Rattle.mdb_pool.specs.Kept.Values.{connection_at, pins_at};
    ghost use Rattle.mdb_pool.specs.Standing.{SameHome, Fits, Accepts, StandsFor, Answers};
    ghost use Rattle.mdb_log.specs.History.{Item, PoolItem, unpinned};
    ghost use Rattle.mdb_log.specs.declared.step.Act.TheVariants.{Unpin};

    // The connection with one pin less.
    fn unpinned_once(&self, connection: Connection) -> Connection
        ensures { result ≡ unpinned_once self.now connection }
    {
        Connection {
            pins: connection.pins.saturating_sub(1),
            timeouts: self.timeouts(),
            ..connection
        }
    }

    // One pin less, and no more of it.
    #[tactic(auto, using(crate::proofs::Listed::Beside::stays_same))]
    fn remove_pin(
        &mut self,
        alloc: Global,
        moment: Moment,
        connection: Connection,
    ) -> Result<(), OutOfMemory>
        requires { connection_at self.old connection.id ≡ Some connection }
        ensures core { OnOk result (self.new ≡ unpinning self.old moment connection) }
        ensures inner { self.new.kept.inner ≡ self.old.kept.inner }
    {
        let fewer = self.unpinned_once(connection);
        self.set_last(moment);
        self.replace_connection(alloc, fewer)?;
        Ok(())
    }

    // The last pin of a connection that is at it goes: the connection is available or closed.
    fn end_pin(
        &mut self,
        alloc: Global,
        facts: &mut Vec<Fact>,
        moment: Moment,
        connection: Connection,
        reason: Option<ConnectionClosedReason>,
    ) -> Result<(), OutOfMemory>
        requires lives { is_some (connection_at self.old connection.id) ≡ true }
        ensures core { OnOk result (self.new ≡ pin_ending self.old moment connection reason) }
        ensures facts { OnOk result (facts.new.items ≡ facts.old.items ++ back_facts self.old connection reason) }
        ensures inner { self.new.kept.inner ≡ self.old.kept.inner }
    {
        self.push_back(facts, connection, reason)?;
        let fewer = self.unpinned_once(connection);
        self.set_last(moment);
        self.place_back(alloc, moment, fewer, reason)?;
        Ok(())
    }

    // A pinned connection loses a pin. Whoever calls has tested the refusals.
    #[tactic(auto, using(crate::proofs::KeptInLittle::ConnectionsThatLive::at_lives), unfolding(crate::specs::Now::queries))]
    pub(crate) fn accept_unpin(
        &mut self,
        alloc: Global,
        facts: &mut Vec<Fact>,
        moment: Moment,
        id: u32,
    ) -> Result<Reply, OutOfMemory>
        requires { nat_lt 0 (pins_at (connection_at self.old id)) ≡ true }
        ensures home { OnOk result (SameHome self.old self.new) }
        ensures last { OnOk result (self.new.kept.last ≡ moment) }
        ensures accepts { IfOk result (λ reply. (xs : List PoolItem) → Fits self.old xs → Accepts self.old self.new facts.old.items facts.new.items moment (Unpin self.old.pool id) reply xs (unpinned id ∷ xs)) }
        ensures inner { self.new.kept.inner ≡ self.old.kept.inner }
    {
        let Some(connection) = self.connection(id).copied() else {
            unreachable!()
        };
        if connection.is_at_last_pin() {
            let reason = self.reason_now(connection);
            self.end_pin(alloc, facts, moment, connection, reason)?;
            self.serve(alloc, facts, moment)?;
            return Ok(Reply::Done);
        }
        self.remove_pin(alloc, moment, connection)?;
        self.serve(alloc, facts, moment)?;
        Ok(Reply::Done)
    }
}

impl PoolCore {
    ghost use Rattle.mdb_pool.specs.Acts.Changes.{unpinned_once, unpinning, pin_ending, back_facts};
    ghost use Rattle.mdb_pool.specs.Kept.Values.{connection_at, pins_at};
    ghost use Rattle.mdb_pool.specs.Standing.{SameHome, Fits, Accepts, StandsFor, Answers};
    ghost use Rattle.mdb_pool.specs.Planning.{Passes};
    ghost use Rattle.mdb_log.specs.History.{Item, PoolItem, unpinned};
    ghost use Rattle.mdb_log.specs.declared.step.Act.TheVariants.{Unpin};

    /// A pinned connection loses a pin; with the last one it is checked in where it is at its pin (CMAP, "Checking In a Connection"). Refused as
    /// `TimeBack`, or as `Unpinned` where no pin stands.
    pub fn unpin(
        &mut self,
        alloc: Global,
        facts: &mut Vec<Fact>,
        moment: Moment,
        id: u32,
    ) -> Result<Reply, OutOfMemory>
        ensures home { OnOk result (SameHome self.old self.new) }
        ensures answers { IfOk result (λ reply. (h : List Item) → StandsFor self.old h → Answers self.old self.new facts.old.items facts.new.items (record { moment = moment; act = Unpin self.old.pool id }) reply h) }
        ensures err_core { OnErr result (self.new ≡ self.old) }
        ensures err_facts { OnErr result (facts.new.items ≡ facts.old.items) }
        ensures passes { OnErr result (Passes self.old (record { moment = moment; act = Unpin self.old.pool id })) }
    {
        let step = Step {
            moment,
            act: Act::Unpin(self.draft.body.pool, id),
        };
        let answer = self.attempt(alloc, facts, &step);
        drop(step);
        answer
    }
}

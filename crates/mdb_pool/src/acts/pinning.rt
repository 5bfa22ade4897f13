//! A party pins its connection, and a pinned connection gets one more pin.

ghost use Rattle.std.specs.Prelude.{◌≡◌, ◌∷◌, OnOk, OnErr, IfOk, List, true, Some, is_some, nat_lt};

use crate::kept::connection::Connection;
use crate::kept::draft::Draft;
use crate::pool_core::PoolCore;
use crate::{Act, Reply, Step};
use mdb_base::{Moment, OutOfMemory};
use mdb_events::Fact;
use std::alloc::Global;

impl Draft {
    ghost use Rattle.mdb_pool.specs.Acts.Changes.{pinning};
    ghost use Rattle.mdb_pool.specs.Kept.Values.{held_connection, connection_at, pins_at};
    ghost use Rattle.mdb_pool.specs.Standing.{SameHome, Fits, Accepts, StandsFor, Answers};
    ghost use Rattle.mdb_log.specs.History.{PoolItem, pinned_by, replicated};
    ghost use Rattle.mdb_log.specs.declared.step.Act.TheVariants.{Pin, Replicate};

    // One more pin. Past the greatest number of the type there is no room for it.
    #[tactic(auto, using(crate::proofs::Listed::Beside::stays_same))]
    fn add_pin(
        &mut self,
        alloc: Global,
        moment: Moment,
        connection: Connection,
    ) -> Result<(), OutOfMemory>
        requires { connection_at self.old connection.id ≡ Some connection }
        ensures core { OnOk result (self.new ≡ pinning self.old moment connection) }
        ensures inner { self.new.kept.inner ≡ self.old.kept.inner }
    {
        let Some(pins) = connection.pins.checked_add(1) else {
            return Err(OutOfMemory);
        };
        self.set_last(moment);
        self.replace_connection(alloc, Connection { pins, ..connection })?;
        Ok(())
    }

    // A held connection is pinned. Whoever calls has tested the refusals.
    #[tactic(auto, unfolding(crate::specs::Now::queries))]
    pub(crate) fn accept_pin(
        &mut self,
        alloc: Global,
        facts: &mut Vec<Fact>,
        moment: Moment,
        party: u32,
    ) -> Result<Reply, OutOfMemory>
        requires { is_some (held_connection self.old party) ≡ true }
        ensures home { OnOk result (SameHome self.old self.new) }
        ensures last { OnOk result (self.new.kept.last ≡ moment) }
        ensures accepts { IfOk result (λ reply. (xs : List PoolItem) → Fits self.old xs → Accepts self.old self.new facts.old.items facts.new.items moment (Pin party) reply xs (pinned_by party ∷ xs)) }
        ensures inner { self.new.kept.inner ≡ self.old.kept.inner }
    {
        let Some(connection) = self.held_connection(party) else {
            unreachable!()
        };
        self.add_pin(alloc, moment, connection)?;
        self.serve(alloc, facts, moment)?;
        Ok(Reply::Done)
    }

    // A pinned connection gets one more pin. Whoever calls has tested the refusals.
    #[tactic(auto, unfolding(crate::specs::Now::queries))]
    pub(crate) fn accept_replicate(
        &mut self,
        alloc: Global,
        facts: &mut Vec<Fact>,
        moment: Moment,
        id: u32,
    ) -> Result<Reply, OutOfMemory>
        requires { nat_lt 0 (pins_at (connection_at self.old id)) ≡ true }
        ensures home { OnOk result (SameHome self.old self.new) }
        ensures last { OnOk result (self.new.kept.last ≡ moment) }
        ensures accepts { IfOk result (λ reply. (xs : List PoolItem) → Fits self.old xs → Accepts self.old self.new facts.old.items facts.new.items moment (Replicate self.old.pool id) reply xs (replicated id ∷ xs)) }
        ensures inner { self.new.kept.inner ≡ self.old.kept.inner }
    {
        let Some(connection) = self.connection(id).copied() else {
            unreachable!()
        };
        self.add_pin(alloc, moment, connection)?;
        self.serve(alloc, facts, moment)?;
        Ok(Reply::Done)
    }
}

impl PoolCore {
    ghost use Rattle.mdb_pool.specs.Acts.Changes.{pinning};
    ghost use Rattle.mdb_pool.specs.Kept.Values.{held_connection, connection_at, pins_at};
    ghost use Rattle.mdb_pool.specs.Standing.{SameHome, Fits, Accepts, StandsFor, Answers};
    ghost use Rattle.mdb_pool.specs.Planning.{Passes};
    ghost use Rattle.mdb_log.specs.Connections.{pins};
    ghost use Rattle.mdb_log.specs.History.{Item, PoolItem, pinned_by, replicated};
    ghost use Rattle.mdb_log.specs.declared.step.Act.TheVariants.{Pin, Replicate};

    /// A party pins its connection: while a pin stands, a return puts the connection at its pin. Refused as `TimeBack`, as `NotHolder` where the
    /// party holds none, or as `PinState` where a pin stands.
    pub fn pin(
        &mut self,
        alloc: Global,
        facts: &mut Vec<Fact>,
        moment: Moment,
        party: u32,
    ) -> Result<Reply, OutOfMemory>
        ensures home { OnOk result (SameHome self.old self.new) }
        ensures answers { IfOk result (λ reply. (h : List Item) → StandsFor self.old h → Answers self.old self.new facts.old.items facts.new.items (record { moment = moment; act = Pin party }) reply h) }
        ensures err_core { OnErr result (self.new ≡ self.old) }
        ensures err_facts { OnErr result (facts.new.items ≡ facts.old.items) }
        ensures passes { OnErr result (Passes self.old (record { moment = moment; act = Pin party })) }
    {
        let step = Step {
            moment,
            act: Act::Pin(party),
        };
        let answer = self.attempt(alloc, facts, &step);
        drop(step);
        answer
    }

    /// A pinned connection gets one more pin. Refused as `TimeBack`, or as `Unpinned` where no pin stands.
    pub fn replicate(
        &mut self,
        alloc: Global,
        facts: &mut Vec<Fact>,
        moment: Moment,
        id: u32,
    ) -> Result<Reply, OutOfMemory>
        ensures home { OnOk result (SameHome self.old self.new) }
        ensures answers { IfOk result (λ reply. (h : List Item) → StandsFor self.old h → Answers self.old self.new facts.old.items facts.new.items (record { moment = moment; act = Replicate self.old.pool id }) reply h) }
        ensures err_core { OnErr result (self.new ≡ self.old) }
        ensures err_facts { OnErr result (facts.new.items ≡ facts.old.items) }
        ensures passes { OnErr result (Passes self.old (record { moment = moment; act = Replicate self.old.pool id })) }
    {
        let step = Step {
            moment,
            act: Act::Replicate(self.draft.body.pool, id),
        };
        let answer = self.attempt(alloc, facts, &step);
        drop(step);
        answer
    }
}

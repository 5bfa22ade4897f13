//! A pending connection of a pool is established.

ghost use Rattle.std.specs.Prelude.{◌≡◌, ◌∷◌, OnOk, OnErr, IfOk, List, true};

use crate::acts::coming_back::{CheckIn, as_made};
use crate::kept::draft::Draft;
use crate::pool_core::PoolCore;
use crate::{Act, Established, Reply, Step};
use mdb_base::{Moment, OutOfMemory};
use mdb_events::Fact;
use std::alloc::Global;

impl Draft {
    ghost use Rattle.mdb_pool.specs.Kept.Values.{connection_at, is_pending_at};
    ghost use Rattle.mdb_pool.specs.Standing.{SameHome, Fits, Accepts, StandsFor, Answers};
    ghost use Rattle.mdb_log.specs.History.{Item, PoolItem, established};
    ghost use Rattle.mdb_log.specs.declared.step.Act.TheVariants.{Established as EstablishedAct};

    // A pending connection is handed over, or goes into the pool. Whoever calls has tested the refusals.
    #[tactic(auto, using(crate::proofs::KeptInLittle::ConnectionsThatLive::at_lives), unfolding(crate::specs::Now::queries))]
    pub(crate) fn accept_established(
        &mut self,
        alloc: Global,
        facts: &mut Vec<Fact>,
        moment: Moment,
        id: u32,
        made: Established,
    ) -> Result<Reply, OutOfMemory>
        requires { is_pending_at (connection_at self.old id) ≡ true }
        ensures home { OnOk result (SameHome self.old self.new) }
        ensures last { OnOk result (self.new.kept.last ≡ moment) }
        ensures accepts { IfOk result (λ reply. (xs : List PoolItem) → Fits self.old xs → Accepts self.old self.new facts.old.items facts.new.items moment (EstablishedAct self.old.pool id made) reply xs (established id made moment ∷ xs)) }
        ensures inner { self.new.kept.inner ≡ self.old.kept.inner }
    {
        let Some(connection) = self.connection(id).copied() else {
            unreachable!()
        };
        let up = as_made(connection, made);
        let reason = self.reason_now(up);
        let back = CheckIn { connection, reason };
        if let Some(request) = self.holder_request(connection) {
            let request = request.copy()?;
            if request.warm {
                self.fill_in(alloc, facts, moment, back, made, request)?;
                self.serve(alloc, facts, moment)?;
                return Ok(Reply::Done);
            }
            let asked_at = request.asked_at;
            self.establish(alloc, facts, moment, connection, made, asked_at)?;
            self.serve(alloc, facts, moment)?;
            return Ok(Reply::Done);
        }
        if connection.has_party() {
            self.pool_connection(alloc, facts, moment, back, made)?;
            self.serve(alloc, facts, moment)?;
            return Ok(Reply::Done);
        }
        self.rest(alloc, facts, moment, connection, made)?;
        self.serve(alloc, facts, moment)?;
        Ok(Reply::Done)
    }
}

impl PoolCore {
    ghost use Rattle.mdb_pool.specs.Kept.Values.{connection_at, is_pending_at};
    ghost use Rattle.mdb_pool.specs.Standing.{SameHome, Fits, Accepts, StandsFor, Answers};
    ghost use Rattle.mdb_pool.specs.Planning.{Passes};
    ghost use Rattle.mdb_log.specs.History.{Item, PoolItem, established};
    ghost use Rattle.mdb_log.specs.declared.step.Act.TheVariants.{Established as EstablishedAct};

    /// A pending connection was established (CMAP, "Establishing a Connection"). Refused as `TimeBack`, `NotPending`, or `WrongMode` where a load-balanced
    /// pool is given no service, or a normal one a service.
    pub fn established(
        &mut self,
        alloc: Global,
        facts: &mut Vec<Fact>,
        moment: Moment,
        id: u32,
        made: Established,
    ) -> Result<Reply, OutOfMemory>
        ensures home { OnOk result (SameHome self.old self.new) }
        ensures answers { IfOk result (λ reply. (h : List Item) → StandsFor self.old h → Answers self.old self.new facts.old.items facts.new.items (record { moment = moment; act = EstablishedAct self.old.pool id made }) reply h) }
        ensures err_core { OnErr result (self.new ≡ self.old) }
        ensures err_facts { OnErr result (facts.new.items ≡ facts.old.items) }
        ensures passes { OnErr result (Passes self.old (record { moment = moment; act = EstablishedAct self.old.pool id made })) }
    {
        let step = Step {
            moment,
            act: Act::Established(self.draft.body.pool, id, made),
        };
        let answer = self.attempt(alloc, facts, &step);
        drop(step);
        answer
    }
}

//! A party returns its connection to a pool.

ghost use Rattle.std.specs.Prelude.{◌≡◌, ◌∷◌, OnOk, OnErr, IfOk, List, true, is_some};

use crate::acts::coming_back::CheckIn;
use crate::kept::clears::used_as;
use crate::kept::draft::Draft;
use crate::kept::request::Phase;
use crate::pool_core::PoolCore;
use crate::{Act, Reply, Step, Use};
use mdb_base::{Moment, OutOfMemory};
use mdb_events::Fact;
use std::alloc::Global;

impl Draft {
    ghost use Rattle.mdb_pool.specs.Kept.Values.{held_connection};
    ghost use Rattle.mdb_pool.specs.Standing.{SameHome, Fits, Accepts, StandsFor, Answers};
    ghost use Rattle.mdb_log.specs.History.{Item, PoolItem, returned};
    ghost use Rattle.mdb_log.specs.declared.step.Act.TheVariants.{Return as ReturnAct};

    // A held connection comes back, or goes to its pin. Whoever calls has tested the refusals.
    #[tactic(auto, using(crate::proofs::KeptInLittle::ConnectionsThatLive::held_lives), unfolding(crate::specs::Now::queries))]
    pub(crate) fn accept_return(
        &mut self,
        alloc: Global,
        facts: &mut Vec<Fact>,
        moment: Moment,
        party: u32,
        used: Use,
    ) -> Result<Reply, OutOfMemory>
        requires { is_some (held_connection self.old party) ≡ true }
        ensures home { OnOk result (SameHome self.old self.new) }
        ensures last { OnOk result (self.new.kept.last ≡ moment) }
        ensures accepts { IfOk result (λ reply. (xs : List PoolItem) → Fits self.old xs → Accepts self.old self.new facts.old.items facts.new.items moment (ReturnAct party used) reply xs (returned party used ∷ xs)) }
        ensures inner { self.new.kept.inner ≡ self.old.kept.inner }
    {
        let Some(request) = self.request(party) else {
            unreachable!()
        };
        let Some(connection) = self.held_for(request) else {
            unreachable!()
        };
        let request = request.copy()?;
        let back = used_as(connection, used);
        if 0 < back.pins {
            self.put_to_pin(alloc, moment, back, request, Phase::Over)?;
            self.serve(alloc, facts, moment)?;
            return Ok(Reply::Done);
        }
        let reason = self.reason_now(back);
        let check_in = CheckIn {
            connection: back,
            reason,
        };
        self.give_back(alloc, facts, moment, check_in, request)?;
        self.serve(alloc, facts, moment)?;
        Ok(Reply::Done)
    }
}

impl PoolCore {
    ghost use Rattle.mdb_pool.specs.Kept.Values.{held_connection};
    ghost use Rattle.mdb_pool.specs.Standing.{SameHome, Fits, Accepts, StandsFor, Answers};
    ghost use Rattle.mdb_pool.specs.Planning.{Passes};
    ghost use Rattle.mdb_log.specs.History.{Item, PoolItem, returned};
    ghost use Rattle.mdb_log.specs.declared.step.Act.TheVariants.{Return as ReturnAct};

    /// A party returns its connection, which goes to its pin where one stands, and else is checked in (CMAP, "Checking In a Connection"). Refused as `TimeBack` or `NotHolder`.
    pub fn check_in(
        &mut self,
        alloc: Global,
        facts: &mut Vec<Fact>,
        moment: Moment,
        party: u32,
        used: Use,
    ) -> Result<Reply, OutOfMemory>
        ensures home { OnOk result (SameHome self.old self.new) }
        ensures answers { IfOk result (λ reply. (h : List Item) → StandsFor self.old h → Answers self.old self.new facts.old.items facts.new.items (record { moment = moment; act = ReturnAct party used }) reply h) }
        ensures err_core { OnErr result (self.new ≡ self.old) }
        ensures err_facts { OnErr result (facts.new.items ≡ facts.old.items) }
        ensures passes { OnErr result (Passes self.old (record { moment = moment; act = ReturnAct party used })) }
    {
        let step = Step {
            moment,
            act: Act::Return(party, used),
        };
        let answer = self.attempt(alloc, facts, &step);
        drop(step);
        answer
    }
}

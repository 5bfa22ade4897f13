//! A step in two parts: what it answers, with all memory that it needs, and then the change.

ghost use Rattle.std.specs.Prelude.{◌≡◌, IfOk, All, List};
ghost use Rattle.mdb_log.specs.Acts.{IsPoolAct};
ghost use Rattle.mdb_log.specs.History.{Item};
ghost use Rattle.mdb_pool.specs.Kept.Body.{led, pool_of, PoolFits};
ghost use Rattle.mdb_pool.specs.Core.{PoolCore as Core};
ghost use Rattle.mdb_pool.specs.Refusing.{TellsNew};
ghost use Rattle.mdb_pool.specs.Standing.{SameHome, StandsFor};
ghost use Rattle.mdb_pool.specs.Planning.{LeadsTo, IsPrepared, Plans, IsPlanOf};

use crate::kept::body::BodyRedo;
use crate::kept::draft::Draft;
use crate::pool_core::PoolCore;
use crate::{Reply, Step};
use mdb_base::{Items, OutOfMemory};
use mdb_events::Fact;
use std::alloc::Global;
use std::marker::Model;

/// What a step is answered, before it is done.
#[derive(Drop)]
pub struct Answered {
    pub reply: Reply,
    pub facts: Items<Fact>,
}

/// The change that answered steps make to their pool. It may be dropped, and the pool then stays as it is.
#[derive(Drop)]
pub struct Plan {
    pub(crate) redo: BodyRedo,
}

impl Model for Plan {
    ghost use Rattle.mdb_pool.specs.Kept.Body.{PoolSteps};

    ghost Value = { PoolSteps };

    ghost view = { λ p. p.redo };
}

impl Draft {
    // The steps are answered, and their changes go.
    fn answered_all(
        &mut self,
        alloc: Global,
        steps: &[Step],
    ) -> Result<(Vec<Answered>, Plan), OutOfMemory>
        requires committed { self.old ≡ pool_of self.old.kept.inner }
        requires acts { All (λ step. IsPoolAct self.old.pool step.act) steps.now }
        requires new { TellsNew self.old steps.now }
        ensures same { self.new ≡ self.old }
        ensures fits { IfOk result (λ made. PoolFits made.1 self.old.kept.inner) }
        ensures does { IfOk result (λ made. LeadsTo self.old (led made.1 self.old) steps.now made.0.items) }
        ensures prepared { IfOk result (λ made. (h : List Item) → StandsFor self.old h → IsPrepared self.old (led made.1 self.old) steps.now made.0.items h) }
    {
        let answers = self.answer_all(alloc, steps);
        let plan = self.undo(alloc);
        match answers {
            Ok(answers) => Ok((answers, plan)),
            Err(e) => {
                drop(plan);
                Err(e)
            }
        }
    }
}

/// The first part of steps that are taken one after another: it answers each as it is after those before it, and makes ready what the second part
/// needs. The pool stays as it is, whatever the answer, and so do the plans that were made on it. In a driver no step but the first names a party, and that party is new to the pool.
pub fn prepare(
    alloc: Global,
    pool: &mut PoolCore,
    steps: &[Step],
) -> Result<(Vec<Answered>, Plan), OutOfMemory>
    requires acts { All (λ step. IsPoolAct pool.old.pool step.act) steps.now }
    requires new { TellsNew pool.old steps.now }
    ensures same { pool.new ≡ pool.old }
    ensures plan { IfOk result (λ made. IsPlanOf made.1 pool.new) }
    ensures does { IfOk result (λ made. (t : Core) → Plans made.1 pool.new t → LeadsTo pool.old t steps.now made.0.items) }
    ensures prepared { IfOk result (λ made. (t : Core) (h : List Item) → Plans made.1 pool.new t → StandsFor pool.old h → IsPrepared pool.old t steps.now made.0.items h) }
{
    pool.draft.answered_all(alloc, steps)
}

/// The second part: the pool changes as it was planned, and its number, its address, its options and whether it stands alone stay. It takes no memory.
#[tactic(auto, unfolding(crate::specs::Planning::Plans))]
pub fn apply(pool: &mut PoolCore, plan: Plan)
    requires { IsPlanOf plan pool.old }
    ensures leads { (t : Core) → Plans plan pool.old t → pool.new ≡ t }
    ensures home { SameHome pool.old pool.new }
{
    let Plan { redo } = plan;
    pool.draft.body.redo(redo);
}

//! A pending connection of a pool fails, after a clear of the pool where that is wanted.

ghost use Rattle.std.specs.Prelude.{◌≡◌, ◌++◌, IfOk, OnOk, None, Some, slice_get, true, false};
ghost use Rattle.mdb_log.specs.Acts.{IsPoolAct};
ghost use Rattle.mdb_pool.specs.Planning.{IsDone};
ghost use Rattle.mdb_pool.specs.Refusing.{names_nobody, refusal_now};
ghost use Rattle.mdb_pool.specs.Core.{PoolCore as Core};
ghost use Rattle.mdb_pool.specs.declared.planning.Answered.{Answered as Answer};
ghost use Rattle.mdb_driver_pools.specs.Failing.{PlansBoth};
ghost use Rattle.mdb_driver_pools.specs.Living.{lives_at};
ghost use Rattle.mdb_driver_pools.specs.Clearing.{asked_of};

use crate::cores::Cores;
use crate::pool_change::PoolChange;
use crate::pools::Pools;
use crate::trouble::{Asked, PoolTrouble, ask};
use mdb_base::{OutOfMemory, ServerAddress};
use mdb_events::{Boxed, Fact};
use mdb_log::{Act, Step};
use mdb_pool::planning::Answered;
use std::alloc::{AllocError, Global};

// Two steps, which the pool at the index accepts one after the other, are answered, and their change comes after those before it.
fn plan_two(
    alloc: Global,
    cores: &mut Cores,
    index: usize,
    first: Step,
    second: &Step,
    changes: &mut Vec<PoolChange>,
) -> Result<(Answered, Answered), OutOfMemory>
    requires there { lives_at cores.old.items index ≡ true }
    requires nobody { (names_nobody first.act ≡ true) × (names_nobody second.now.act ≡ true) }
    requires acts { (s : Core) → slice_get cores.old.items index ≡ Some s → IsPoolAct s.pool first.act × IsPoolAct s.pool second.now.act }
    requires accepted { (s : Core) → slice_get cores.old.items index ≡ Some s → refusal_now s first ≡ None }
    requires still { (s : Core) → slice_get cores.old.items index ≡ Some s → (t : Core) (a : Answer) → IsDone s t first a → refusal_now t second.now ≡ None }
    ensures same { cores.new ≡ cores.old }
    ensures planned { IfOk result (λ made. (s : Core) → slice_get cores.old.items index ≡ Some s → PlansBoth s index first second.now made.0 made.1 changes.old.items changes.new.items) }
{
    let mut steps = Vec::new(alloc);
    steps.push(first)?;
    let second = second.clone()?;
    steps.push(second)?;
    let (mut answers, plan) = cores.prepare(alloc, index, &steps)?;
    let Some(later) = answers.pop() else {
        unreachable!();
    };
    let Some(sooner) = answers.pop() else {
        unreachable!();
    };
    changes.push(PoolChange::Alter(index, plan))?;
    Ok((sooner, later))
}

// What an answer told comes after what was told before.
fn tell(facts: &mut Vec<Fact>, answered: Answered) -> Result<(), AllocError>
    ensures { OnOk result (facts.new.items ≡ facts.old.items ++ answered.facts) }
{
    let mut told = answered.facts.into_inner();
    facts.append(&mut told)
}

// What the clear told, what is asked, and what the failure told.
fn tell_both(
    facts: &mut Vec<Fact>,
    address: &ServerAddress,
    asked: Asked,
    cleared: Answered,
    failed: Answered,
) -> Result<(), AllocError>
    ensures { OnOk result (facts.new.items ≡ ((facts.old.items ++ cleared.facts) ++ asked_of asked true address.now) ++ failed.facts) }
{
    tell(facts, cleared)?;
    ask(facts, asked, true, address)?;
    tell(facts, failed)
}

impl Pools {
    ghost use Rattle.mdb_driver_pools.specs.Failing.{Fails, IsFailing, PlansAlone, PlansTwo, StillFails};
    ghost use Rattle.mdb_driver_pools.specs.Clearing.{AcceptsClear};

    // The failure alone, after what is asked.
    fn plan_failed(
        &mut self,
        alloc: Global,
        step: &Step,
        trouble: &PoolTrouble<'_>,
        facts: &mut Vec<Fact>,
        changes: &mut Vec<PoolChange>,
    ) -> Result<(), OutOfMemory>
        requires there { lives_at self.old.cores.items trouble.now.index ≡ true }
        requires failing { (s : Core) → slice_get self.old.cores.items trouble.now.index ≡ Some s → IsFailing s step.now trouble.now.error.now }
        ensures same { self.new ≡ self.old }
        ensures planned { OnOk result (PlansAlone self.old.cores.items trouble.now.index step.now trouble.now.asked changes.old.items changes.new.items facts.old.items facts.new.items) }
    {
        ask(
            facts,
            trouble.asked,
            false,
            self.cores.at(trouble.index).address(),
        )?;
        let step = step.clone()?;
        self.plan_act(alloc, trouble.index, step, facts, changes)
    }

    // The clear, what is asked, and the failure.
    fn plan_both(
        &mut self,
        alloc: Global,
        clear: Step,
        step: &Step,
        trouble: &PoolTrouble<'_>,
        facts: &mut Vec<Fact>,
        changes: &mut Vec<PoolChange>,
    ) -> Result<(), OutOfMemory>
        requires there { lives_at self.old.cores.items trouble.now.index ≡ true }
        requires nobody { (names_nobody clear.act ≡ true) × (names_nobody step.now.act ≡ true) }
        requires moment { clear.moment ≡ step.now.moment }
        requires acts { (s : Core) → slice_get self.old.cores.items trouble.now.index ≡ Some s → IsPoolAct s.pool clear.act × IsPoolAct s.pool step.now.act }
        requires accepted { (s : Core) → slice_get self.old.cores.items trouble.now.index ≡ Some s → refusal_now s clear ≡ None }
        requires still { (s : Core) → slice_get self.old.cores.items trouble.now.index ≡ Some s → (t : Core) (a : Answer) → IsDone s t clear a → refusal_now t step.now ≡ None }
        ensures same { self.new ≡ self.old }
        ensures planned { OnOk result (PlansTwo self.old.cores.items trouble.now.index (λ p. clear.act) step.now trouble.now.asked changes.old.items changes.new.items facts.old.items facts.new.items) }
    {
        let (cleared, failed) = plan_two(
            alloc,
            &mut self.cores,
            trouble.index,
            clear,
            step,
            changes,
        )?;
        tell_both(
            facts,
            self.cores.at(trouble.index).address(),
            trouble.asked,
            cleared,
            failed,
        )?;
        Ok(())
    }

    /// A pending connection of the pool at the index fails by the step, after a clear by the error where that is wanted.
    pub fn plan_failure(
        &mut self,
        alloc: Global,
        step: &Step,
        trouble: &PoolTrouble<'_>,
        facts: &mut Vec<Fact>,
        changes: &mut Vec<PoolChange>,
    ) -> Result<(), OutOfMemory>
        requires there { lives_at self.old.cores.items trouble.now.index ≡ true }
        requires failing { (s : Core) → slice_get self.old.cores.items trouble.now.index ≡ Some s → IsFailing s step.now trouble.now.error.now }
        requires still { (s : Core) → slice_get self.old.cores.items trouble.now.index ≡ Some s → StillFails s step.now trouble.now.service trouble.now.error.now }
        requires accepted { trouble.now.clears ≡ true → AcceptsClear self.old.cores.items trouble.now.index step.now.moment trouble.now.service trouble.now.error.now }
        ensures same { self.new ≡ self.old }
        ensures fails { OnOk result (Fails trouble.now.clears self.old.cores.items trouble.now.index step.now trouble.now.service trouble.now.error.now trouble.now.asked changes.old.items changes.new.items facts.old.items facts.new.items) }
    {
        let wanted = trouble.clears;
        if !wanted {
            return self.plan_failed(alloc, step, trouble, facts, changes);
        }
        let error = Boxed::copy_of(alloc, trouble.error)?;
        let act = Act::Clear(
            self.cores.at(trouble.index).number(),
            trouble.service,
            error,
        );
        let moment = step.moment;
        let clear = Step { moment, act };
        self.plan_both(alloc, clear, step, trouble, facts, changes)
    }
}

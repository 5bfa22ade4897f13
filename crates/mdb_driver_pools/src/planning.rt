//! An act of one pool is planned at its index, and the pool stays as it is.

ghost use Rattle.std.specs.Prelude.{◌≡◌, IfOk, OnOk, None, Some, slice_get, true};
ghost use Rattle.mdb_log.specs.Acts.{IsPoolAct};
ghost use Rattle.mdb_pool.specs.Planning.{Plans, IsPlanOf, IsDone};
ghost use Rattle.mdb_pool.specs.Refusing.{names_nobody, refusal_now};
ghost use Rattle.mdb_pool.specs.Core.{PoolCore as Core};
ghost use Rattle.mdb_driver_pools.specs.Living.{lives_at};

use crate::cores::Cores;
use crate::pool_change::PoolChange;
use crate::pools::Pools;
use mdb_base::OutOfMemory;
use mdb_events::Fact;
use mdb_log::Step;
use mdb_pool::planning::{Answered, Plan};
use std::alloc::Global;
use std::slice;

// A step that the pool at the index accepts is answered, with the change that it makes.
fn plan_one(
    alloc: Global,
    cores: &mut Cores,
    index: usize,
    step: Step,
) -> Result<(Answered, Plan), OutOfMemory>
    requires there { lives_at cores.old.items index ≡ true }
    requires nobody { names_nobody step.act ≡ true }
    requires act { (s : Core) → slice_get cores.old.items index ≡ Some s → IsPoolAct s.pool step.act }
    requires accepted { (s : Core) → slice_get cores.old.items index ≡ Some s → refusal_now s step ≡ None }
    ensures same { cores.new ≡ cores.old }
    ensures plan { IfOk result (λ made. (s : Core) → slice_get cores.old.items index ≡ Some s → IsPlanOf made.1 s) }
    ensures does { IfOk result (λ made. (s t : Core) → slice_get cores.old.items index ≡ Some s → Plans made.1 s t → IsDone s t step made.0) }
{
    let (mut answers, plan) = cores.prepare(alloc, index, slice::from_ref(&step))?;
    let Some(answered) = answers.pop() else {
        unreachable!();
    };
    Ok((answered, plan))
}

impl Pools {
    ghost use Rattle.mdb_driver_pools.specs.Acting.{PlansOne};

    /// The pool at the index answers a step that it accepts, and its change is planned.
    pub(crate) fn plan_act(
        &mut self,
        alloc: Global,
        index: usize,
        step: Step,
        facts: &mut Vec<Fact>,
        changes: &mut Vec<PoolChange>,
    ) -> Result<(), OutOfMemory>
        requires there { lives_at self.old.cores.items index ≡ true }
        requires nobody { names_nobody step.act ≡ true }
        requires accepted { (s : Core) → slice_get self.old.cores.items index ≡ Some s → IsPoolAct s.pool step.act × (refusal_now s step ≡ None) }
        ensures same { self.new ≡ self.old }
        ensures planned { OnOk result (PlansOne self.old.cores.items index step.moment (λ p. step.act) changes.old.items changes.new.items facts.old.items facts.new.items) }
    {
        let (answered, plan) = plan_one(alloc, &mut self.cores, index, step)?;
        changes.push(PoolChange::Alter(index, plan))?;
        let mut told = answered.facts.into_inner();
        facts.append(&mut told)?;
        Ok(())
    }
}

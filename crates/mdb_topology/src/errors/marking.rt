//! An error marks a server Unknown, clears its pool, and asks something of its monitor.

ghost use Rattle.std.specs.Prelude.{◌≡◌, ◌≤◌, ◌<◌, ◌&&◌, [], IfOk, IfSome, OnErr, None, Some, is_some, length, slice_get, true, false};
ghost use Rattle.mdb_describe.specs.Descriptions.{failed};
ghost use Rattle.mdb_describe.specs.Differences.{difference, AreInOrder, are_in_both};
ghost use Rattle.mdb_describe.specs.Update.{updated};
ghost use Rattle.mdb_pool.specs.Core.{PoolCore as Core};
ghost use Rattle.mdb_driver_rules.specs.Publishing.{telling};
ghost use Rattle.mdb_driver_rules.specs.Touching.{touched_by};
ghost use Rattle.mdb_driver_pools.specs.Living.{lives_at};

use crate::errors::marked::Marked;
use crate::topology::TopologyCore;
use crate::transition::{Decision, Transition};
use mdb_base::{Error, Moment, OutOfMemory, ServerAddress};
use mdb_describe::{Diff, TopologyDescription};
use mdb_driver_pools::{Asked, PoolChange, PoolTrouble, TopologyChange, ask};
use mdb_events::Fact;
use mdb_log::{Refused, Reply, Step, What};
use std::alloc::{AllocError, Global};

impl TopologyCore {
    ghost use Rattle.mdb_driver_rules.specs.Errors.{Trouble};
    ghost use Rattle.mdb_topology.specs.Marking.{IsMarked, IsMarkOf, IsOfPool, MarkPasses, MarkTold, MarksTo};
    ghost use Rattle.mdb_driver_pools.specs.Clearing.{AcceptsClear};
    ghost use Rattle.mdb_driver_pools.specs.Planned.{PlansMore};
    ghost use Rattle.mdb_topology.specs.Standing.{StandsForSome};
    ghost use Rattle.mdb_driver_pools.specs.Standing.{at_address};

    /// The mark is told, and the changes of pools are planned.
    pub(crate) fn publish_mark(
        &mut self,
        alloc: Global,
        moment: Moment,
        later: &TopologyDescription,
        diff: &Option<Diff>,
        facts: &mut Vec<Fact>,
    ) -> Result<Vec<PoolChange>, OutOfMemory>
        requires stands { StandsForSome self.old }
        requires in_time { self.old.pools.last ≤ moment }
        requires marked { IsMarkOf self.old.description later.now }
        requires diff { difference self.old.description.servers later.now.servers ≡ diff.now }
        requires ordered { IfSome diff.now (λ d. AreInOrder d) }
        requires in_both { IfSome diff.now (λ d. are_in_both self.old.description.servers later.now.servers d.changed ≡ true) }
        ensures same { self.new ≡ self.old }
        ensures planned { IfOk result (λ changes. PlansMore self.old.options moment self.old.pools.cores.items (length self.old.pools.cores.items) (touched_by later.now diff.now) (telling self.old.options moment self.old.description later.now diff.now) [] [] [] changes.items facts.old.items facts.new.items) }
    {
        match diff {
            Some(diff) => {
                let change = TopologyChange {
                    options: &self.options,
                    moment,
                    earlier: &self.description,
                    later,
                };
                self.pools.plan_publication(alloc, &change, diff, facts)
            }
            None => Ok(Vec::new(alloc)),
        }
    }

    // What the mark tells, with the clear and what is asked.
    fn tell_mark(
        &mut self,
        alloc: Global,
        step: &Step,
        trouble: &PoolTrouble<'_>,
        address: &ServerAddress,
        later: &TopologyDescription,
    ) -> Result<Marked, OutOfMemory>
        requires stands { StandsForSome self.old }
        requires in_time { self.old.pools.last ≤ step.now.moment }
        requires normal { self.old.options.load_balanced ≡ false }
        requires here { at_address self.old.pools.cores.items address.now ≡ Some trouble.now.index }
        requires marked { later.now ≡ updated self.old.description (failed address.now trouble.now.error.now) }
        requires accepted { is_some (difference self.old.description.servers later.now.servers) && trouble.now.clears ≡ true → AcceptsClear self.old.pools.cores.items trouble.now.index step.now.moment None trouble.now.error.now }
        ensures same { self.new ≡ self.old }
        ensures told { IfOk result (λ marked. (x : Trouble) → IsOfPool self.old.options x trouble.now.index address.now trouble.now.error.now trouble.now.clears trouble.now.asked → MarkTold self.old step.now.moment later.now x marked.facts.items marked.changes.items marked.changed) }
    {
        let diff = self.description.diff(alloc, later)?;
        let mut facts = Vec::new(alloc);
        let moment = step.moment;
        let mut changes = self.publish_mark(alloc, moment, later, &diff, &mut facts)?;
        let changed = diff.is_some();
        drop(diff);
        let cleared = changed && trouble.clears;
        let clear = PoolTrouble {
            index: trouble.index,
            service: None,
            error: trouble.error,
            clears: cleared,
            asked: trouble.asked,
        };
        self.pools
            .plan_clear(alloc, moment, &clear, &mut facts, &mut changes)?;
        ask(&mut facts, trouble.asked, cleared, address)?;
        Ok(Marked {
            facts,
            changes,
            changed,
        })
    }

    /// The server of the address, whose pool stands at the index, is marked Unknown by the error.
    pub(crate) fn mark_at(
        &mut self,
        alloc: Global,
        step: &Step,
        trouble: &PoolTrouble<'_>,
        address: &ServerAddress,
    ) -> Result<Transition, OutOfMemory>
        requires stands { StandsForSome self.old }
        requires in_time { self.old.pools.last ≤ step.now.moment }
        requires normal { self.old.options.load_balanced ≡ false }
        requires here { at_address self.old.pools.cores.items address.now ≡ Some trouble.now.index }
        requires accepted { is_some (difference self.old.description.servers (updated self.old.description (failed address.now trouble.now.error.now)).servers) && trouble.now.clears ≡ true → AcceptsClear self.old.pools.cores.items trouble.now.index step.now.moment None trouble.now.error.now }
        ensures same { self.new ≡ self.old }
        ensures marked { IfOk result (λ next. (x : Trouble) → IsOfPool self.old.options x trouble.now.index address.now trouble.now.error.now trouble.now.clears trouble.now.asked → IsMarked self.old step.now.moment (updated self.old.description (failed address.now trouble.now.error.now)) x next) }
    {
        let later = self.after_error(alloc, address, trouble.error)?;
        let marked = self.tell_mark(alloc, step, trouble, address, &later);
        match marked {
            Ok(marked) => Ok(Transition {
                facts: marked.facts,
                changes: marked.changes,
                description: Some(later),
                ..Transition::of_reply(alloc, Reply::Changed(marked.changed))
            }),
            Err(e) => {
                drop(later);
                Err(e)
            }
        }
    }

    /// The server whose pool stands at the index is marked Unknown by the error. Where that changes something, and the error clears, its pool is cleared. That the generation of the pool is at its
    /// limit is found before anything is made.
    pub(crate) fn mark(
        &mut self,
        alloc: Global,
        step: &Step,
        index: usize,
        error: &Error,
        clears: bool,
        asked: Asked,
    ) -> Result<Decision, OutOfMemory>
        requires stands { StandsForSome self.old }
        requires in_time { self.old.pools.last ≤ step.now.moment }
        requires normal { self.old.options.load_balanced ≡ false }
        requires there { lives_at self.old.pools.cores.items index ≡ true }
        requires here { (s : Core) → slice_get self.old.pools.cores.items index ≡ Some s → at_address self.old.pools.cores.items s.address ≡ Some index }
        ensures same { self.new ≡ self.old }
        ensures marks { IfOk result (λ stepped. (s : Core) (x : Trouble) → slice_get self.old.pools.cores.items index ≡ Some s → IsOfPool self.old.options x index s.address error.now clears asked → MarksTo self.old step.now.moment (updated self.old.description (failed s.address error.now)) x stepped) }
        ensures spares { OnErr result ((s : Core) (x : Trouble) → slice_get self.old.pools.cores.items index ≡ Some s → IsOfPool self.old.options x index s.address error.now clears asked → MarkPasses self.old step.now.moment (updated self.old.description (failed s.address error.now)) x None) }
    {
        if self.overspends(index, self.pools.cores.at(index).address(), error, clears) {
            return Ok(Decision::Refused(Refused::Exhausted(What::Generation)));
        }
        let address = self.pools.cores.at(index).address().clone()?;
        let trouble = PoolTrouble {
            index,
            service: None,
            error,
            clears,
            asked,
        };
        let next = self.mark_at(alloc, step, &trouble, &address)?;
        Ok(Decision::Accepted(next))
    }
}

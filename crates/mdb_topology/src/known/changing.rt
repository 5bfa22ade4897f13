//! Steps that change what is known of the topology.

ghost use Rattle.std.specs.Prelude.{◌≡◌, ◌≤◌, ◌+◌, ◌^◌, [], IfOk, IfSome, length, map, All, Some, true, false};
ghost use Rattle.mdb_describe.specs.Differences.{difference, AreInOrder, are_in_both};
ghost use Rattle.mdb_describe.specs.Servers.{in_order};
ghost use Rattle.mdb_driver_rules.specs.Publishing.{telling};

use crate::known::telling_changes::{Publication, new_monitors};
use crate::topology::TopologyCore;
use crate::transition::{Decision, Transition};
use mdb_base::{Moment, OutOfMemory};
use mdb_describe::{Diff, TopologyDescription};
use mdb_driver_pools::TopologyChange;
use mdb_log::{Refused, Reply, Step, What};
use std::alloc::Global;

/// The most servers that a driver keeps.
pub const MAX_SERVERS: usize = 128;

impl TopologyCore {
    ghost use Rattle.mdb_monitor.specs.Standing.{StandsFor as MonitorStands};
    ghost use Rattle.mdb_driver_rules.specs.Monitors.{setting};
    ghost use Rattle.mdb_driver_pools.specs.Planned.{opened_by};
    ghost use Rattle.mdb_topology.specs.Standing.{StandsForSome};
    ghost use Rattle.mdb_topology.specs.Changing.{IsTold, ChangesTo, AreFew, passes_limit};

    // Some pool that would come has a number past the limit.
    fn passes_limit(&self, diff: &Option<Diff>) -> bool
        ensures passes { result ≡ passes_limit self.now diff.now }
        ensures few { length self.now.pools.cores.items ≤ 2 ^ 32 → result ≡ false → AreFew self.now diff.now }
    {
        match diff {
            Some(diff) => self.is_past_last(diff.added.as_slice()),
            None => false,
        }
    }

    // The facts, the changes and the monitors of the difference.
    fn tell_difference(
        &mut self,
        alloc: Global,
        moment: Moment,
        later: &TopologyDescription,
        diff: &Diff,
    ) -> Result<Publication, OutOfMemory>
        requires stands { StandsForSome self.old }
        requires in_time { self.old.pools.last ≤ moment }
        requires diff { difference self.old.description.servers later.now.servers ≡ Some diff.now }
        requires ordered { AreInOrder diff.now }
        requires in_both { are_in_both self.old.description.servers later.now.servers diff.now.changed ≡ true }
        requires few { length self.old.pools.cores.items + length diff.now.added ≤ 2 ^ 32 }
        ensures same { self.new ≡ self.old }
        ensures told { IfOk result (λ told. IsTold self.old.options moment self.old.pools.cores.items (length self.old.pools.cores.items) later.now (telling self.old.options moment self.old.description later.now (Some diff.now)) told.changes.items told.facts.items) }
        ensures settings { IfOk result (λ told. map (λ m. m.setting) told.monitors.items ≡ map (λ x. setting self.old.options x.address) (opened_by told.changes.items)) }
        ensures stand { IfOk result (λ told. All (λ m. MonitorStands m []) told.monitors.items) }
    {
        let mut facts = Vec::new(alloc);
        let change = TopologyChange {
            options: &self.options,
            moment,
            earlier: &self.description,
            later,
        };
        let changes = self
            .pools
            .plan_publication(alloc, &change, diff, &mut facts)?;
        let monitors = new_monitors(alloc, &self.options, changes.as_slice())?;
        Ok(Publication {
            facts,
            changes,
            monitors,
        })
    }

    // What a change of the topology comes to, where there is a difference.
    pub(crate) fn tell(
        &mut self,
        alloc: Global,
        moment: Moment,
        later: &TopologyDescription,
        diff: &Option<Diff>,
    ) -> Result<Publication, OutOfMemory>
        requires stands { StandsForSome self.old }
        requires in_time { self.old.pools.last ≤ moment }
        requires diff { difference self.old.description.servers later.now.servers ≡ diff.now }
        requires ordered { IfSome diff.now (λ d. AreInOrder d) }
        requires in_both { IfSome diff.now (λ d. are_in_both self.old.description.servers later.now.servers d.changed ≡ true) }
        requires few { AreFew self.old diff.now }
        ensures same { self.new ≡ self.old }
        ensures told { IfOk result (λ told. IsTold self.old.options moment self.old.pools.cores.items (length self.old.pools.cores.items) later.now (telling self.old.options moment self.old.description later.now diff.now) told.changes.items told.facts.items) }
        ensures settings { IfOk result (λ told. map (λ m. m.setting) told.monitors.items ≡ map (λ x. setting self.old.options x.address) (opened_by told.changes.items)) }
        ensures stand { IfOk result (λ told. All (λ m. MonitorStands m []) told.monitors.items) }
    {
        match diff {
            Some(diff) => self.tell_difference(alloc, moment, later, diff),
            None => Ok(Publication::nothing(alloc)),
        }
    }

    // A change of what is known is told, where no limit refuses it.
    pub(crate) fn change(
        &mut self,
        alloc: Global,
        step: &Step,
        later: TopologyDescription,
    ) -> Result<Decision, OutOfMemory>
        requires stands { StandsForSome self.old }
        requires in_time { self.old.pools.last ≤ step.now.moment }
        ensures same { self.new ≡ self.old }
        ensures changes { IfOk result (λ stepped. ChangesTo self.old step.now.moment later stepped) }
    {
        if MAX_SERVERS < later.servers().len() {
            drop(later);
            return Ok(Decision::Refused(Refused::Exhausted(What::Servers)));
        }
        match self.description.diff(alloc, &later) {
            Ok(diff) => self.change_by(alloc, step, later, diff),
            Err(e) => {
                drop(later);
                Err(e)
            }
        }
    }

    fn change_by(
        &mut self,
        alloc: Global,
        step: &Step,
        later: TopologyDescription,
        diff: Option<Diff>,
    ) -> Result<Decision, OutOfMemory>
        requires stands { StandsForSome self.old }
        requires in_time { self.old.pools.last ≤ step.now.moment }
        requires diff { difference self.old.description.servers later.servers ≡ diff }
        requires in_step { IfSome diff (λ d. AreInOrder d) }
        requires in_both { IfSome diff (λ d. are_in_both self.old.description.servers later.servers d.changed ≡ true) }
        requires few { length later.servers ≤ 128 }
        requires ordered { in_order later.servers ≡ true }
        ensures same { self.new ≡ self.old }
        ensures changes { IfOk result (λ stepped. ChangesTo self.old step.now.moment later stepped) }
    {
        if self.passes_limit(&diff) {
            drop(later);
            drop(diff);
            return Ok(Decision::Refused(Refused::Exhausted(What::Pool)));
        }
        let told = self.tell(alloc, step.moment, &later, &diff);
        let changed = diff.is_some();
        drop(diff);
        match told {
            Ok(told) => Ok(Decision::Accepted(told.into_next(
                Reply::Changed(changed),
                later,
                false,
            ))),
            Err(e) => {
                drop(later);
                Err(e)
            }
        }
    }
}

//! The changes of a pool stay, or are taken back.

ghost use Rattle.std.specs.Prelude.{◌≡◌};
ghost use Rattle.mdb_pool.specs.Kept.Body.{pool_of, led, PoolFits};
ghost use Rattle.mdb_pool.specs.Core.{SameKept};

use crate::kept::draft::Draft;
use crate::planning::Plan;
use std::alloc::Global;

impl Draft {
    // The changes go, and the plan makes them again.
    pub(crate) fn undo(&mut self, alloc: Global) -> Plan
        ensures now { self.new ≡ pool_of self.old.kept.inner }
        ensures fits { PoolFits result self.old.kept.inner }
        ensures leads { SameKept self.old (led result self.new) }
    {
        let redo = self.body.undo(alloc);
        Plan { redo }
    }

    // The changes go.
    pub(crate) fn roll_back(&mut self, alloc: Global)
        ensures { self.new ≡ pool_of self.old.kept.inner }
    {
        let plan = self.undo(alloc);
        drop(plan);
    }

    // The changes stay.
    pub(crate) fn commit(&mut self)
        ensures now { self.new ≡ pool_of self.new.kept.inner }
        ensures same { SameKept self.old self.new }
    {
        self.body.commit();
    }
}

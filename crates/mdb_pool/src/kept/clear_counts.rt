//! How often a pool was cleared, with changes that can be taken back.

ghost use Rattle.std.specs.Prelude.{◌≡◌, ◌∷◌, ◌++◌, []};
ghost use Rattle.mdb_pool.specs.Kept.Clearing.{cleared_after};

use crate::kept::marks::Marks;
use crate::kept::status::Clear;
use mdb_past::{Past, Tells};
use mdb_slots::UndoCell;
use std::alloc::Global;
use std::marker::Model;

/// The marks of a pool's clears. Contracts see all clears.
#[derive(Drop)]
pub struct ClearCounts {
    marks: UndoCell<Marks>,
    // All clears, and those that there were when they were last committed.
    all: Past<Clear>,
    settled: Past<Clear>,
}

impl Model for ClearCounts {
    ghost use Rattle.mdb_pool.specs.Kept.Clearing.{OpenCleared};

    ghost Value = { OpenCleared };

    ghost view = { λ c. record { now = record { all = c.all.value; marks = c.marks.now }; base = record { all = c.settled.value; marks = c.marks.base } } };
}

/// Changes that were taken back, to be made again.
#[derive(Drop)]
pub struct ClearCountsRedo {
    marks: Option<Marks>,
    all: Past<Clear>,
}

impl Model for ClearCountsRedo {
    ghost use Rattle.mdb_pool.specs.Kept.Clearing.{ClearSteps};

    ghost Value = { ClearSteps };

    ghost view = { λ t. record { all = t.all.value; marks = t.marks } };
}

// What is told is the list of clears that is given.
struct Same;

impl Tells<Past<Clear>, Clear> for Same {
    ghost told = { λ p. p.value };
}

// One clear more.
struct OneMore;

impl<'a> Tells<(&'a Past<Clear>, &'a Clear), Clear> for OneMore {
    ghost use Rattle.std.specs.Prelude.{◌∷◌, ◌++◌, []};

    ghost told = { λ x. x.0.now.value ++ x.1.now ∷ [] };
}

impl ClearCounts {
    /// Nothing was cleared.
    pub(crate) fn none(alloc: Global) -> ClearCounts
        ensures now { (result.now.all ≡ []) × (result.now.marks.list.items ≡ []) × (result.now.marks.total ≡ 0) × (result.now.marks.timeouts ≡ 0) }
        ensures base { result.base ≡ result.now }
    {
        ClearCounts {
            marks: UndoCell::new(Marks {
                list: Vec::new(alloc),
                total: 0,
                timeouts: 0,
            }),
            all: Past::none(),
            settled: Past::none(),
        }
    }

    /// The marks.
    pub(crate) fn marks(&self) -> &Marks
        ensures { result.now ≡ self.now.now.marks }
    {
        self.marks.get()
    }

    /// One clear more, by these marks.
    pub(crate) fn push(&mut self, clear: Clear, marks: Marks)
        ensures now { self.new.now ≡ record { all = self.old.now.all ++ clear ∷ []; marks = marks } }
        ensures base { self.new.base ≡ self.old.base }
    {
        let all = Past::of::<(&Past<Clear>, &Clear), OneMore>(&(&self.all, &clear));
        self.marks.set(marks);
        self.all = all;
    }

    /// The changes go, and what comes back makes them again. It takes no memory.
    pub(crate) fn undo(&mut self) -> ClearCountsRedo
        ensures cleared { (self.new.now ≡ self.old.base) × (self.new.base ≡ self.old.base) }
        ensures onto { cleared_after result self.new.base ≡ self.old.now }
    {
        let all = Past::of::<Past<Clear>, Same>(&self.all);
        let settled = Past::of::<Past<Clear>, Same>(&self.settled);
        let redo = ClearCountsRedo {
            marks: self.marks.undo(),
            all,
        };
        self.all = settled;
        redo
    }

    /// The changes go.
    pub(crate) fn roll_back(&mut self)
        ensures { (self.new.now ≡ self.old.base) × (self.new.base ≡ self.old.base) }
    {
        let _gone = self.undo();
    }

    /// Whatever was changed goes, and the changes are made again and stay. It takes no memory.
    pub(crate) fn redo(&mut self, redo: ClearCountsRedo)
        ensures { (self.new.base ≡ cleared_after redo self.old.base) × (self.new.now ≡ self.new.base) }
    {
        let ClearCountsRedo { marks, all } = redo;
        self.marks.redo(marks);
        self.settled = Past::of::<Past<Clear>, Same>(&all);
        self.all = all;
    }

    /// The changes stay.
    pub(crate) fn commit(&mut self)
        ensures { (self.new.now ≡ self.old.now) × (self.new.base ≡ self.old.now) }
    {
        self.marks.commit();
        self.settled = Past::of::<Past<Clear>, Same>(&self.all);
    }
}

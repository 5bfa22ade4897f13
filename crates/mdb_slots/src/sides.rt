//! A table with lists of the values on its left and on its right: records on the left, numbers on the right. Changes are made in place, and can be taken back.

ghost use Rattle.std.specs.Prelude.{◌≡◌, [], true, not, length, map, filter, find, OnOk, OnErr, option_copied};
ghost use Rattle.mdb_slots.specs.Keyed.{entry_at, entry_after, entry_before, after_key, rest_of, first_of, last_of, others, put, swap};
ghost use Rattle.mdb_slots.specs.Lists.{apart};
ghost use Rattle.mdb_slots.specs.Items.{records_of};
ghost use Rattle.mdb_slots.specs.Slots.{listing};
ghost use Rattle.mdb_slots.specs.Table.{items};
ghost use Rattle.mdb_slots.specs.Sided.{stays, noted, numbered, picked, nothing_sided, sided_after, sided_capacity_after, SidedFits, SidedPlans};

use crate::records::Record;
use crate::side_parts::SideParts;
use crate::sided::Sided;
use crate::slot_table::SlotTable;
use crate::table::{Table, TableRedo};
use mdb_base::OutOfMemory;
use std::alloc::Global;
use std::marker::Model;

/// At most one value for each number, with lists of those on the left and on the right: as they are, and as they were when they were last committed. The left list keeps records, the right one numbers.
#[derive(Drop)]
pub struct Sides<T: Sided> {
    parts: SideParts<T>,
}

impl<T: Sided> Model for Sides<T> {
    ghost use Rattle.mdb_slots.specs.Sided.{OpenSided, PartsInStep, ShelvesInStep, sides_base, sides_capacity};

    ghost Value = { OpenSided T };

    ghost view = { λ t. record { now = t.parts.table.now; base = sides_base t.parts; capacity = sides_capacity t.parts } };

    ghost invariant = { λ t. PartsInStep T.key T.service T.since T.on_left T.on_right t.parts × ShelvesInStep T.key T.service T.since T.on_left T.on_right (sides_base t.parts) };
}

/// Changes that were taken back, to be made again.
#[derive(Drop)]
pub struct SidesRedo<T: Sided> {
    table: TableRedo<T>,
    left: TableRedo<Record>,
    right: TableRedo<u32>,
}

impl<T: Sided> Model for SidesRedo<T> {
    ghost use Rattle.mdb_slots.specs.Sided.{SidedSteps};

    ghost Value = { SidedSteps T };

    ghost view = { λ t. record { table = t.table; left = t.left; right = t.right } };
}

impl<T: Sided> Sides<T> {
    /// No values. It takes no memory.
    pub fn new(alloc: Global) -> Sides<T>
        ensures now { result.now ≡ [] }
        ensures base { result.base ≡ nothing_sided }
    {
        Sides {
            parts: SideParts {
                table: Table::new(alloc),
                left: Table::new(alloc),
                right: Table::new(alloc),
            },
        }
    }

    /// How many values there are.
    pub fn len(&self) -> usize
        ensures value { result ≡ length self.now.now }
        ensures apart { apart (map T.key self.now.now) ≡ true }
    {
        self.parts.table.len()
    }

    /// The value that has the number.
    pub fn get(&self, key: u32) -> Option<&T>
        ensures { option_copied result ≡ entry_at T.key key self.now.now }
    {
        self.parts.table.get(key)
    }

    /// The value that was put before all others.
    pub fn first(&self) -> Option<&T>
        ensures value { option_copied result ≡ first_of self.now.now }
        ensures rest { rest_of T.key (option_copied result) self.now.now ≡ self.now.now }
    {
        self.parts.table.first()
    }

    /// The value that follows the one that has the number. `None` where there is none.
    pub fn next(&self, key: u32) -> Option<&T>
        ensures value { option_copied result ≡ entry_after T.key key self.now.now }
        ensures rest { rest_of T.key (option_copied result) self.now.now ≡ after_key T.key key self.now.now }
    {
        self.parts.table.next(key)
    }

    /// The value that was put after all others.
    pub fn last(&self) -> Option<&T>
        ensures { option_copied result ≡ last_of self.now.now }
    {
        self.parts.table.last()
    }

    /// The value that precedes the one that has the number. `None` where there is none.
    pub fn previous(&self, key: u32) -> Option<&T>
        ensures { option_copied result ≡ entry_before T.key key self.now.now }
    {
        self.parts.table.previous(key)
    }

    // The value whose record it is.
    fn of_record(&self, listed: Option<Record>) -> Option<&T>
        ensures { option_copied result ≡ picked T.key (λ r. r.id) listed self.now.now }
    {
        match listed {
            Some(found) => self.parts.table.get(found.id),
            None => None,
        }
    }

    // The value that has the number.
    fn of_number(&self, listed: Option<u32>) -> Option<&T>
        ensures { option_copied result ≡ picked T.key (λ k. k) listed self.now.now }
    {
        match listed {
            Some(found) => self.parts.table.get(found),
            None => None,
        }
    }

    /// The first value on the left.
    pub fn first_left(&self) -> Option<&T>
        ensures value { option_copied result ≡ find T.on_left self.now.now }
        ensures apart { apart (map T.key self.now.now) ≡ true }
        ensures rest { rest_of T.key (option_copied result) (filter T.on_left self.now.now) ≡ filter T.on_left self.now.now }
    {
        self.of_record(self.parts.left.first().copied())
    }

    /// The first value on the right.
    pub fn first_right(&self) -> Option<&T>
        ensures value { option_copied result ≡ find T.on_right self.now.now }
        ensures apart { apart (map T.key self.now.now) ≡ true }
        ensures rest { rest_of T.key (option_copied result) (filter T.on_right self.now.now) ≡ filter T.on_right self.now.now }
    {
        self.of_number(self.parts.right.first().copied())
    }

    /// The last value on the left.
    pub fn last_left(&self) -> Option<&T>
        ensures { option_copied result ≡ last_of (filter T.on_left self.now.now) }
    {
        self.of_record(self.parts.left.last().copied())
    }

    /// The value on the left that follows the one that has the number. `None` where there is none.
    pub fn next_left(&self, key: u32) -> Option<&T>
        ensures { rest_of T.key (option_copied result) (filter T.on_left self.now.now) ≡ after_key T.key key (filter T.on_left self.now.now) }
    {
        self.of_record(self.parts.left.next(key).copied())
    }

    /// The value on the right that follows the one that has the number. `None` where there is none.
    pub fn next_right(&self, key: u32) -> Option<&T>
        ensures { rest_of T.key (option_copied result) (filter T.on_right self.now.now) ≡ after_key T.key key (filter T.on_right self.now.now) }
    {
        self.of_number(self.parts.right.next(key).copied())
    }

    /// The records of the values on the left, in their order.
    pub fn left(&self) -> &Table<Record>
        ensures { result.now.now ≡ noted T.key T.service T.since T.on_left self.now.now }
    {
        &self.parts.left
    }

    /// The records of the values on the left in their slots.
    pub fn left_slots(&self) -> &SlotTable
        ensures { records_of (listing result.now).items ≡ noted T.key T.service T.since T.on_left self.now.now }
    {
        self.parts.left.slots()
    }

    /// The numbers of the values on the right, in their order.
    pub fn right(&self) -> &Table<u32>
        ensures { result.now.now ≡ numbered T.key T.on_right self.now.now }
    {
        &self.parts.right
    }

    /// The item comes last, in place of the one that had its number. Where there is no memory all changes go.
    pub fn put(&mut self, alloc: Global, item: T) -> Result<(), OutOfMemory>
        ensures now { OnOk result (self.new.now ≡ put T.key item self.old.now) }
        ensures gone { OnErr result (self.new.now ≡ items self.old.base.table) }
        ensures base { self.new.base ≡ self.old.base }
        ensures capacity { self.new.capacity ≡ self.old.capacity }
    {
        match self.parts.put(item) {
            Ok(()) => Ok(()),
            Err(e) => {
                self.parts.roll_back(alloc);
                Err(e)
            }
        }
    }

    /// The item takes the place of the one that had its number. Nothing changes where there was none. Where there is no memory all changes go.
    pub fn replace(&mut self, alloc: Global, item: T) -> Result<(), OutOfMemory>
        requires left { stays T.on_left item (entry_at T.key (T.key item) self.old.now) ≡ true }
        requires right { stays T.on_right item (entry_at T.key (T.key item) self.old.now) ≡ true }
        ensures now { OnOk result (self.new.now ≡ swap T.key item self.old.now) }
        ensures gone { OnErr result (self.new.now ≡ items self.old.base.table) }
        ensures base { self.new.base ≡ self.old.base }
        ensures capacity { self.new.capacity ≡ self.old.capacity }
    {
        match self.parts.replace(item) {
            Ok(()) => Ok(()),
            Err(e) => {
                self.parts.roll_back(alloc);
                Err(e)
            }
        }
    }

    /// The value that has the number goes. Where there is no memory all changes go.
    pub fn remove(&mut self, alloc: Global, key: u32) -> Result<(), OutOfMemory>
        ensures now { OnOk result (self.new.now ≡ others T.key key self.old.now) }
        ensures gone { OnErr result (self.new.now ≡ items self.old.base.table) }
        ensures base { self.new.base ≡ self.old.base }
        ensures capacity { self.new.capacity ≡ self.old.capacity }
    {
        match self.parts.remove(key) {
            Ok(()) => Ok(()),
            Err(e) => {
                self.parts.roll_back(alloc);
                Err(e)
            }
        }
    }

    /// The values on the left go. Where there is no memory all changes go.
    pub fn clear_left(&mut self, alloc: Global) -> Result<(), OutOfMemory>
        ensures now { OnOk result (self.new.now ≡ filter (λ x. not (T.on_left x)) self.old.now) }
        ensures gone { OnErr result (self.new.now ≡ items self.old.base.table) }
        ensures base { self.new.base ≡ self.old.base }
        ensures capacity { self.new.capacity ≡ self.old.capacity }
    {
        while let Some(x) = self.first_left() {
            let key = x.key();
            self.remove(alloc, key)?;
        }
        Ok(())
    }

    /// The values on the right go. Where there is no memory all changes go.
    pub fn clear_right(&mut self, alloc: Global) -> Result<(), OutOfMemory>
        ensures now { OnOk result (self.new.now ≡ filter (λ x. not (T.on_right x)) self.old.now) }
        ensures gone { OnErr result (self.new.now ≡ items self.old.base.table) }
        ensures base { self.new.base ≡ self.old.base }
        ensures capacity { self.new.capacity ≡ self.old.capacity }
    {
        while let Some(x) = self.first_right() {
            let key = x.key();
            self.remove(alloc, key)?;
        }
        Ok(())
    }

    /// The changes go, and what comes back makes them again. It takes no memory.
    pub fn undo(&mut self, alloc: Global) -> SidesRedo<T>
        ensures now { self.new.now ≡ items self.old.base.table }
        ensures base { self.new.base ≡ self.old.base }
        ensures capacity { self.new.capacity ≡ self.old.capacity }
        ensures plan { SidedPlans T.key T.service T.since T.on_left T.on_right result self.new.base self.new.capacity self.old.now }
    {
        SidesRedo {
            table: self.parts.table.undo(alloc),
            left: self.parts.left.undo(alloc),
            right: self.parts.right.undo(alloc),
        }
    }

    /// Whatever was changed goes, and the changes are made again and stay. It takes no memory.
    pub fn redo(&mut self, redo: SidesRedo<T>)
        requires { SidedFits T.key T.service T.since T.on_left T.on_right redo self.old.base self.old.capacity }
        ensures base { self.new.base ≡ sided_after redo self.old.base }
        ensures now { self.new.now ≡ items self.new.base.table }
        ensures capacity { self.new.capacity ≡ sided_capacity_after redo self.old.capacity }
    {
        let SidesRedo { table, left, right } = redo;
        self.parts.table.redo(table);
        self.parts.left.redo(left);
        self.parts.right.redo(right);
    }

    /// The changes stay. It takes no memory.
    pub fn commit(&mut self)
        ensures now { self.new.now ≡ self.old.now }
        ensures base { items self.new.base.table ≡ self.old.now }
    {
        self.parts.table.commit();
        self.parts.left.commit();
        self.parts.right.commit();
    }
}

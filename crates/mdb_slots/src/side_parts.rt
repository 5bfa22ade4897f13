//! A table and the two lists beside it, changed together.

ghost use Rattle.std.specs.Prelude.{◌≡◌, ◌&&◌, true, false, Bool, OnOk};
ghost use Rattle.mdb_slots.specs.Keyed.{entry_at, others, put, swap};
ghost use Rattle.mdb_slots.specs.Table.{items};
ghost use Rattle.mdb_slots.specs.Sided.{relisted, amended, remaining, stays, PartsInStep, sides_base, sides_capacity};

use crate::keyed::Keyed;
use crate::records::Record;
use crate::sided::Sided;
use crate::table::Table;
use mdb_base::OutOfMemory;
use std::alloc::Global;

/// The values, the records of those on the left, and the numbers of those on the right.
#[derive(Drop)]
pub struct SideParts<T: Keyed> {
    pub table: Table<T>,
    pub left: Table<Record>,
    pub right: Table<u32>,
}

// The entry comes last where it stands in the list, and is gone where it does not.
fn relist<L: Keyed>(list: &mut Table<L>, listed: L, stands: bool) -> Result<(), OutOfMemory>
    ensures now { OnOk result (list.new.now ≡ relisted L.key stands listed list.old.now) }
    ensures base { list.new.base ≡ list.old.base }
    ensures capacity { list.new.capacity ≡ list.old.capacity }
{
    if stands {
        return list.put(listed);
    }
    list.remove(listed.key())
}

// The record changes where it stands in the list, and is gone where it does not. Where it did not stand there, nothing is looked up.
fn amend(
    list: &mut Table<Record>,
    listed: Record,
    stood: bool,
    stands: bool,
) -> Result<(), OutOfMemory>
    requires { stood ≡ false → others (λ r. r.id) listed.id list.old.now ≡ list.old.now }
    ensures now { OnOk result (list.new.now ≡ amended (λ r. r.id) stands listed list.old.now) }
    ensures base { list.new.base ≡ list.old.base }
    ensures capacity { list.new.capacity ≡ list.old.capacity }
{
    if stands {
        return list.replace(listed);
    }
    if stood {
        return list.remove(listed.id);
    }
    Ok(())
}

// The number is gone where it does not stand in the list. Where it did not stand there, nothing is looked up.
fn retain(list: &mut Table<u32>, number: u32, stood: bool, stands: bool) -> Result<(), OutOfMemory>
    requires { stood ≡ false → others (λ k. k) number list.old.now ≡ list.old.now }
    ensures now { OnOk result (list.new.now ≡ remaining stands number list.old.now) }
    ensures base { list.new.base ≡ list.old.base }
    ensures capacity { list.new.capacity ≡ list.old.capacity }
{
    if stood && !stands {
        return list.remove(number);
    }
    Ok(())
}

impl<T: Sided> SideParts<T> {
    // On which sides the value stands that has the number.
    fn stood(&self, key: u32) -> (bool, bool)
        requires { PartsInStep T.key T.service T.since T.on_left T.on_right self.now }
        ensures left { result.0 ≡ false → others (λ r. r.id) key self.now.left.now ≡ self.now.left.now }
        ensures right { result.1 ≡ false → others (λ k. k) key self.now.right.now ≡ self.now.right.now }
    {
        if self.left.len() == 0 && self.right.len() == 0 {
            return (false, false);
        }
        match self.table.get(key) {
            Some(old) => (old.on_left(), old.on_right()),
            None => (false, false),
        }
    }

    /// The item comes last, in place of the one that had its number.
    pub(crate) fn put(&mut self, item: T) -> Result<(), OutOfMemory>
        requires { PartsInStep T.key T.service T.since T.on_left T.on_right self.old }
        ensures now { OnOk result (self.new.table.now ≡ put T.key item self.old.table.now) }
        ensures in_step { OnOk result (PartsInStep T.key T.service T.since T.on_left T.on_right self.new) }
        ensures base { sides_base self.new ≡ sides_base self.old }
        ensures capacity { sides_capacity self.new ≡ sides_capacity self.old }
    {
        let on_left = item.on_left();
        let on_right = item.on_right();
        let listed = item.record();
        self.table.put(item)?;
        relist(&mut self.left, listed, on_left)?;
        relist(&mut self.right, listed.id, on_right)?;
        Ok(())
    }

    /// The item takes the place of the one that had its number. Nothing changes where there was none.
    pub(crate) fn replace(&mut self, item: T) -> Result<(), OutOfMemory>
        requires in_step { PartsInStep T.key T.service T.since T.on_left T.on_right self.old }
        requires left { stays T.on_left item (entry_at T.key (T.key item) self.old.table.now) ≡ true }
        requires right { stays T.on_right item (entry_at T.key (T.key item) self.old.table.now) ≡ true }
        ensures now { OnOk result (self.new.table.now ≡ swap T.key item self.old.table.now) }
        ensures in_step { OnOk result (PartsInStep T.key T.service T.since T.on_left T.on_right self.new) }
        ensures base { sides_base self.new ≡ sides_base self.old }
        ensures capacity { sides_capacity self.new ≡ sides_capacity self.old }
    {
        let on_left = item.on_left();
        let on_right = item.on_right();
        let listed = item.record();
        let stood = self.stood(listed.id);
        self.table.replace(item)?;
        amend(&mut self.left, listed, stood.0, on_left)?;
        retain(&mut self.right, listed.id, stood.1, on_right)?;
        Ok(())
    }

    /// The value that has the number goes.
    pub(crate) fn remove(&mut self, key: u32) -> Result<(), OutOfMemory>
        requires { PartsInStep T.key T.service T.since T.on_left T.on_right self.old }
        ensures now { OnOk result (self.new.table.now ≡ others T.key key self.old.table.now) }
        ensures in_step { OnOk result (PartsInStep T.key T.service T.since T.on_left T.on_right self.new) }
        ensures base { sides_base self.new ≡ sides_base self.old }
        ensures capacity { sides_capacity self.new ≡ sides_capacity self.old }
    {
        self.table.remove(key)?;
        self.left.remove(key)?;
        self.right.remove(key)?;
        Ok(())
    }

    /// All changes go.
    pub(crate) fn roll_back(&mut self, alloc: Global)
        ensures table { self.new.table.now ≡ items self.old.table.base }
        ensures left { self.new.left.now ≡ items self.old.left.base }
        ensures right { self.new.right.now ≡ items self.old.right.base }
        ensures base { sides_base self.new ≡ sides_base self.old }
        ensures capacity { sides_capacity self.new ≡ sides_capacity self.old }
    {
        let _table_gone = self.table.undo(alloc);
        let _left_gone = self.left.undo(alloc);
        let _right_gone = self.right.undo(alloc);
    }
}

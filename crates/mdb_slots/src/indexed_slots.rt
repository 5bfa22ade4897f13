//! The parts of a table, changed together.

ghost use Rattle.std.specs.Prelude.{◌≡◌, ◌<◌, ◌≤◌, ◌++◌, ◌∷◌, [], ℕ, None, Some, length, OnOk, option_copied};
ghost use Rattle.mdb_slots.specs.Keyed.{entry_at, others};
ghost use Rattle.mdb_slots.specs.Cells.{at_place};
ghost use Rattle.mdb_slots.specs.SlotIndex.{slot_of};
ghost use Rattle.mdb_slots.specs.Table.{HoldsParts, MayChange, MayCome, MayGo, base_of, capacity_of, values_of};

use crate::keyed::Keyed;
use crate::slot_index::SlotIndex;
use crate::slots::Slots;
use crate::touches::Touches;
use mdb_base::OutOfMemory;

/// The slots in their order with what they hold, and the slots by number.
#[derive(Drop)]
pub struct IndexedSlots<T: Drop> {
    pub slots: Slots<T>,
    pub index: SlotIndex,
}

impl<T: Keyed> IndexedSlots<T> {
    /// The value in the slot, if there is one.
    pub(crate) fn cell(&self, at: Option<u32>) -> Option<&T>
        ensures { option_copied result ≡ at_place self.now.slots.cells at }
    {
        let mut touches = Touches { count: 0 };
        match at {
            Some(slot) => self.slots.value(slot, &mut touches),
            None => None,
        }
    }

    /// There is a free slot.
    pub(crate) fn make_slot(&mut self) -> Result<(), OutOfMemory>
        requires { HoldsParts T.key self.old }
        ensures holds { HoldsParts T.key self.new }
        ensures now { values_of self.new ≡ values_of self.old }
        ensures spare { OnOk result (0 < self.new.slots.order.spare) }
        ensures base { base_of self.new ≡ base_of self.old }
        ensures capacity { capacity_of self.new ≡ capacity_of self.old }
    {
        if self.slots.free() > 0 {
            return Ok(());
        }
        if self.slots.size() >= u32::MAX as usize {
            return Err(OutOfMemory);
        }
        self.index.grow()?;
        self.slots.grow()
    }

    /// One value may come without memory.
    pub(crate) fn ready_to_put(&mut self) -> Result<(), OutOfMemory>
        requires { HoldsParts T.key self.old }
        ensures holds { HoldsParts T.key self.new }
        ensures now { values_of self.new ≡ values_of self.old }
        ensures spare { self.new.slots.order.spare ≡ self.old.slots.order.spare }
        ensures room { OnOk result (MayCome self.new) }
        ensures base { base_of self.new ≡ base_of self.old }
        ensures capacity { capacity_of self.new ≡ capacity_of self.old }
    {
        self.slots.ready(2, 1)?;
        self.index.ready_to_insert()
    }

    /// One value may go without memory.
    pub(crate) fn ready_to_take(&mut self) -> Result<(), OutOfMemory>
        requires { HoldsParts T.key self.old }
        ensures holds { HoldsParts T.key self.new }
        ensures now { values_of self.new ≡ values_of self.old }
        ensures room { OnOk result (MayGo self.new) }
        ensures index { self.new.index.now ≡ self.old.index.now }
        ensures base { base_of self.new ≡ base_of self.old }
        ensures capacity { capacity_of self.new ≡ capacity_of self.old }
    {
        self.slots.ready(3, 1)?;
        self.index.ready_to_remove()
    }

    /// The place and the value of one slot may change without memory.
    pub(crate) fn ready_to_renew(&mut self) -> Result<(), OutOfMemory>
        requires { HoldsParts T.key self.old }
        ensures holds { HoldsParts T.key self.new }
        ensures now { values_of self.new ≡ values_of self.old }
        ensures room { OnOk result (MayChange self.new) }
        ensures index { self.new.index.now ≡ self.old.index.now }
        ensures base { base_of self.new ≡ base_of self.old }
        ensures capacity { capacity_of self.new ≡ capacity_of self.old }
    {
        self.slots.ready(4, 1)
    }

    /// The value of the slot that the number leads to goes.
    pub(crate) fn take_slot(&mut self, number: u32, slot: u32)
        requires holds { HoldsParts T.key self.old }
        requires slot { slot_of number self.old.index.now ≡ Some slot }
        requires room { MayGo self.old }
        ensures holds { HoldsParts T.key self.new }
        ensures now { values_of self.new ≡ others T.key number (values_of self.old) }
        ensures base { base_of self.new ≡ base_of self.old }
        ensures capacity { capacity_of self.new ≡ capacity_of self.old }
    {
        let mut touches = Touches { count: 0 };
        self.slots.take(slot, false, &mut touches);
        self.index.remove(number, slot);
    }

    /// The item takes the place of the one that had its number, and comes last.
    pub(crate) fn renew(&mut self, item: T, slot: u32)
        requires holds { HoldsParts T.key self.old }
        requires slot { slot_of (T.key item) self.old.index.now ≡ Some slot }
        requires room { MayChange self.old }
        ensures holds { HoldsParts T.key self.new }
        ensures now { values_of self.new ≡ others T.key (T.key item) (values_of self.old) ++ item ∷ [] }
        ensures base { base_of self.new ≡ base_of self.old }
        ensures capacity { capacity_of self.new ≡ capacity_of self.old }
    {
        let mut touches = Touches { count: 0 };
        self.slots.renew(slot, item, &mut touches);
    }

    /// The value comes last.
    pub(crate) fn put_in(&mut self, item: T)
        requires holds { HoldsParts T.key self.old }
        requires new { entry_at T.key (T.key item) (values_of self.old) ≡ None }
        requires spare { 0 < self.old.slots.order.spare }
        requires room { MayCome self.old }
        ensures holds { HoldsParts T.key self.new }
        ensures now { values_of self.new ≡ values_of self.old ++ item ∷ [] }
        ensures base { base_of self.new ≡ base_of self.old }
        ensures capacity { capacity_of self.new ≡ capacity_of self.old }
    {
        let mut touches = Touches { count: 0 };
        let number = item.key();
        let slot = self.slots.bring(item, false, &mut touches);
        self.index.insert(number, slot);
    }
}

//! Values in slots that are used again, in the order in which they came. Their changes can be taken back and made again.

ghost use Rattle.std.specs.Prelude.{◌≡◌, ◌+◌, ◌-◌, ◌^◌, ◌<◌, ◌≤◌, ◌++◌, ◌∷◌, [], ℕ, Some, None, true, false, is_some, length, slice_set, OnOk, option_copied};
ghost use Rattle.mdb_slots.specs.Lists.{has, apart, without, head_or, last_or, next, previous};
ghost use Rattle.mdb_slots.specs.Cells.{cell_at};
ghost use Rattle.mdb_slots.specs.SlotOrder.{order_of};
ghost use Rattle.mdb_slots.specs.Slots.{nothing_filled, slots_after, slots_room_after, SlotsFit, SlotsGoBack, SlotsLast};

use crate::slot_order::{OrderRedo, SlotOrder};
use crate::touches::Touches;
use crate::undo_list::{Redo, UndoList};
use crate::visits::{read, write};
use mdb_base::OutOfMemory;
use std::alloc::Global;
use std::marker::Model;

/// The order of the slots in use, and what each slot holds. A change may be one that can be taken back, or one that stays, as do all before it then.
#[derive(Drop)]
pub struct Slots<T: Drop> {
    order: SlotOrder,
    cells: UndoList<Option<T>>,
}

impl<T: Drop> Model for Slots<T> {
    ghost use Rattle.mdb_slots.specs.SlotOrder.{order_of};
    ghost use Rattle.mdb_slots.specs.Slots.{OpenSlots, IsFilled};

    ghost Value = { OpenSlots T };

    ghost view = { λ t. record { order = t.order.now; cells = t.cells.now; base = record { order = t.order.base; cells = t.cells.base }; capacity = record { order = t.order.capacity; cells = t.cells.capacity }; room = record { order = t.order.room; cells = t.cells.room } } };

    ghost invariant = { λ t. IsFilled t.order.now t.cells.now × IsFilled (order_of t.order.base) t.cells.base };
}

/// Changes of slots that were taken back, to be made again.
#[derive(Drop)]
pub struct SlotsRedo<T: Drop> {
    order: OrderRedo,
    cells: Redo<Option<T>>,
}

impl<T: Drop> Model for SlotsRedo<T> {
    ghost use Rattle.mdb_slots.specs.Slots.{SlotSteps};

    ghost Value = { SlotSteps T };

    ghost view = { λ t. record { order = t.order; cells = t.cells } };
}

impl<T: Drop> Slots<T> {
    pub(crate) fn empty(alloc: Global) -> Slots<T>
        ensures used { result.order.used ≡ [] }
        ensures spare { result.order.spare ≡ 0 }
        ensures cells { result.cells ≡ [] }
        ensures base { result.base ≡ nothing_filled }
    {
        Slots {
            order: SlotOrder::new(alloc),
            cells: UndoList::new(alloc),
        }
    }

    /// How many slots are in use.
    pub(crate) fn size(&self) -> usize
        ensures value { result ≡ length self.now.order.used }
        ensures apart { apart self.now.order.used ≡ true }
        ensures few { length self.now.order.used + self.now.order.spare < 2 ^ 32 }
    {
        self.order.len()
    }

    /// How many slots are free.
    pub(crate) fn free(&self) -> usize
        ensures { result ≡ self.now.order.spare }
    {
        self.order.spare()
    }

    pub(crate) fn first(&self) -> Option<u32>
        ensures { result ≡ head_or None self.now.order.used }
    {
        self.order.first()
    }

    pub(crate) fn last(&self) -> Option<u32>
        ensures { result ≡ last_or None self.now.order.used }
    {
        self.order.last()
    }

    /// The slot that came after this one.
    pub(crate) fn next(&self, at: u32, touches: &mut Touches) -> Option<u32>
        requires member { has at self.now.order.used ≡ true }
        requires few { touches.old.count < 2 ^ 64 - 1 }
        ensures value { result ≡ next at self.now.order.used }
        ensures counts { touches.new.count ≤ touches.old.count + 1 }
        ensures counted { touches.old.count ≤ touches.new.count }
    {
        self.order.after(at, touches)
    }

    /// The slot that came before this one.
    pub(crate) fn previous(&self, at: u32, touches: &mut Touches) -> Option<u32>
        requires member { has at self.now.order.used ≡ true }
        requires few { touches.old.count < 2 ^ 64 - 1 }
        ensures value { result ≡ previous None at self.now.order.used }
        ensures counts { touches.new.count ≤ touches.old.count + 1 }
        ensures counted { touches.old.count ≤ touches.new.count }
    {
        self.order.before(at, touches)
    }

    /// The value in the slot. `None` where the slot is free, or there is no such slot.
    pub(crate) fn value(&self, at: u32, touches: &mut Touches) -> Option<&T>
        requires { touches.old.count < 2 ^ 64 - 1 }
        ensures value { option_copied result ≡ cell_at self.now.cells at }
        ensures cover { is_some (option_copied result) ≡ has at self.now.order.used }
        ensures counts { touches.new.count ≤ touches.old.count + 1 }
        ensures counted { touches.old.count ≤ touches.new.count }
    {
        if at as usize >= self.cells.as_slice().len() {
            return None;
        }
        read(&self.cells, at, touches).as_ref()
    }

    /// So many changes of nodes and of cells may come without memory.
    pub(crate) fn ready(&mut self, nodes: usize, cells: usize) -> Result<(), OutOfMemory>
        ensures order { self.new.order ≡ self.old.order }
        ensures cells { self.new.cells ≡ self.old.cells }
        ensures base { self.new.base ≡ self.old.base }
        ensures capacity { self.new.capacity ≡ self.old.capacity }
        ensures nodes_room { OnOk result (nodes ≤ self.new.room.order) }
        ensures cells_room { OnOk result (cells ≤ self.new.room.cells) }
    {
        self.order.ready(nodes)?;
        self.cells.ready(cells)
    }

    /// One more slot may be used.
    pub(crate) fn grow(&mut self) -> Result<(), OutOfMemory>
        requires { length self.old.order.used + self.old.order.spare < 2 ^ 32 - 1 }
        ensures used { self.new.order.used ≡ self.old.order.used }
        ensures spare { OnOk result (self.new.order.spare ≡ self.old.order.spare + 1) }
        ensures kept { self.old.order.spare ≤ self.new.order.spare }
        ensures bound { self.new.order.spare ≤ self.old.order.spare + 1 }
        ensures cells { (k : ℕ) → cell_at self.new.cells k ≡ cell_at self.old.cells k }
        ensures long { length self.new.order.used + self.new.order.spare ≤ length self.new.cells }
        ensures longer { length self.old.cells ≤ length self.new.cells }
        ensures base { self.new.base ≡ self.old.base }
        ensures capacity { self.new.capacity ≡ self.old.capacity }
    {
        self.cells.push(None)?;
        self.order.grow()
    }

    /// The value takes a free slot, as the newest.
    pub(crate) fn bring(&mut self, value: T, stays: bool, touches: &mut Touches) -> u32
        requires spare { 0 < self.old.order.spare }
        requires nodes_room { stays ≡ false → 1 < self.old.room.order }
        requires cells_room { stays ≡ false → 0 < self.old.room.cells }
        requires few { touches.old.count < 2 ^ 64 - 5 }
        ensures used { self.new.order.used ≡ self.old.order.used ++ result ∷ [] }
        ensures spare { self.new.order.spare + 1 ≡ self.old.order.spare }
        ensures new { has result self.old.order.used ≡ false }
        ensures within { result < length self.old.order.used + self.old.order.spare }
        ensures few { result < 2 ^ 32 - 1 }
        ensures cell { result < length self.old.cells }
        ensures cells { self.new.cells ≡ slice_set self.old.cells result (Some value) }
        ensures open { stays ≡ false → SlotsGoBack self.old self.new }
        ensures lasts { stays ≡ true → SlotsLast self.new }
        ensures counts { touches.new.count ≤ touches.old.count + 5 }
        ensures counted { touches.old.count ≤ touches.new.count }
    {
        let at = self.order.push(stays, touches);
        write(&mut self.cells, at, Some(value), stays, touches);
        at
    }

    /// The slot is free from now on.
    pub(crate) fn take(&mut self, at: u32, stays: bool, touches: &mut Touches)
        requires member { has at self.old.order.used ≡ true }
        requires nodes_room { stays ≡ false → 2 < self.old.room.order }
        requires cells_room { stays ≡ false → 0 < self.old.room.cells }
        requires few { touches.old.count < 2 ^ 64 - 7 }
        ensures used { self.new.order.used ≡ without at self.old.order.used }
        ensures spare { self.new.order.spare ≡ self.old.order.spare + 1 }
        ensures cells { self.new.cells ≡ slice_set self.old.cells at None }
        ensures open { stays ≡ false → SlotsGoBack self.old self.new }
        ensures lasts { stays ≡ true → SlotsLast self.new }
        ensures nodes_room { self.old.room.order ≤ self.new.room.order + 3 }
        ensures cells_room { self.old.room.cells ≤ self.new.room.cells + 1 }
        ensures counts { touches.new.count ≤ touches.old.count + 7 }
        ensures counted { touches.old.count ≤ touches.new.count }
    {
        self.order.remove(at, stays, touches);
        write(&mut self.cells, at, None, stays, touches);
    }

    /// The value takes the place of another. The change can be taken back.
    pub(crate) fn swap(&mut self, at: u32, value: T, touches: &mut Touches)
        requires member { has at self.old.order.used ≡ true }
        requires room { 0 < self.old.room.cells }
        requires few { touches.old.count < 2 ^ 64 - 1 }
        ensures order { self.new.order ≡ self.old.order }
        ensures cells { self.new.cells ≡ slice_set self.old.cells at (Some value) }
        ensures base { SlotsGoBack self.old self.new }
    {
        write(&mut self.cells, at, Some(value), false, touches);
    }

    /// The value takes the place of another, and is the newest. The change can be taken back.
    pub(crate) fn renew(&mut self, at: u32, value: T, touches: &mut Touches)
        requires member { has at self.old.order.used ≡ true }
        requires nodes_room { 3 < self.old.room.order }
        requires cells_room { 0 < self.old.room.cells }
        requires few { touches.old.count < 2 ^ 64 - 9 }
        ensures used { self.new.order.used ≡ without at self.old.order.used ++ at ∷ [] }
        ensures spare { self.new.order.spare ≡ self.old.order.spare }
        ensures cells { self.new.cells ≡ slice_set self.old.cells at (Some value) }
        ensures base { SlotsGoBack self.old self.new }
    {
        self.order.renew(at, touches);
        write(&mut self.cells, at, Some(value), false, touches);
    }

    /// The changes go, and what comes back makes them again.
    pub(crate) fn undo(&mut self, alloc: Global) -> SlotsRedo<T>
        ensures order { self.new.order ≡ order_of self.old.base.order }
        ensures cells { self.new.cells ≡ self.old.base.cells }
        ensures base { self.new.base ≡ self.old.base }
        ensures capacity { self.new.capacity ≡ self.old.capacity }
        ensures fits { SlotsFit result self.new.base self.new.capacity }
        ensures order_onto { order_of (slots_after result self.new.base).order ≡ self.old.order }
        ensures cells_onto { (slots_after result self.new.base).cells ≡ self.old.cells }
    {
        SlotsRedo {
            order: self.order.undo(alloc),
            cells: self.cells.undo(alloc),
        }
    }

    /// Whatever was changed goes, and the changes are made again and stay.
    pub(crate) fn redo(&mut self, redo: SlotsRedo<T>)
        requires { SlotsFit redo self.old.base self.old.capacity }
        ensures base { self.new.base ≡ slots_after redo self.old.base }
        ensures order { self.new.order ≡ order_of self.new.base.order }
        ensures cells { self.new.cells ≡ self.new.base.cells }
        ensures capacity { self.new.capacity ≡ slots_room_after redo self.old.capacity }
    {
        let SlotsRedo { order, cells } = redo;
        self.order.redo(order);
        self.cells.redo(cells);
    }

    /// The changes stay.
    pub(crate) fn commit(&mut self)
        ensures order { self.new.order ≡ self.old.order }
        ensures cells { self.new.cells ≡ self.old.cells }
        ensures order_base { order_of self.new.base.order ≡ self.old.order }
        ensures cells_base { self.new.base.cells ≡ self.old.cells }
    {
        self.order.commit();
        self.cells.commit();
    }
}

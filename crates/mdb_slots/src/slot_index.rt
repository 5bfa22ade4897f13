//! The slots by number, whose changes can be taken back and made again.

ghost use Rattle.std.specs.Prelude.{◌≡◌, ◌≢◌, ◌==◌, ◌+◌, ◌-◌, ◌++◌, ◌∷◌, ◌<◌, ◌≤◌, ◌^◌, [], ℕ, None, Some, length, slice_set, OnOk, OnErr, if◌then◌else◌};
ghost use Rattle.mdb_slots.specs.SlotIndex.{slot_of, numbers_of, nothing_indexed, indexing_after, index_room_after, IndexFits, AreWithin, LeavesAll, both};

use crate::bucket::{Buckets, bucket_of, empty, head_of, lengthen};
use crate::ends::where_none;
use crate::index_entry::{IndexEntry, entry_of, find_before, find_number, set_same};
use crate::maybe_slot::MaybeSlot;
use crate::undo_list::{Redo, UndoList};
use mdb_base::OutOfMemory;
use std::alloc::Global;
use std::marker::Model;

// How many buckets an index has first. So their number is a power of two, and a mask gives the bucket of a number.
const FIRST_WIDTH: usize = 8;

/// At most one slot for each number. The slots whose numbers have the same bucket are a chain.
#[derive(Drop)]
pub struct SlotIndex {
    buckets: Buckets,
}

impl Model for SlotIndex {
    ghost use Rattle.mdb_slots.specs.SlotIndex.{OpenIndex, KeepsIndex, numbers_of, base_of, capacity_of, room_of};
    ghost use Rattle.std.specs.Prelude.{length};

    ghost Value = { OpenIndex };

    ghost view = { λ t. record { now = numbers_of t.buckets.entries.now; width = length t.buckets.heads.now; base = base_of t.buckets; capacity = capacity_of t.buckets; room = room_of t.buckets } };

    ghost invariant = { λ t. KeepsIndex (record { heads = t.buckets.heads.now; entries = t.buckets.entries.now }) × KeepsIndex (base_of t.buckets) };
}

/// Changes of an index that were taken back, to be made again.
#[derive(Drop)]
pub struct IndexRedo {
    heads: Redo<MaybeSlot>,
    entries: Redo<IndexEntry>,
}

impl Model for IndexRedo {
    ghost use Rattle.mdb_slots.specs.SlotIndex.{IndexSteps};

    ghost Value = { IndexSteps };

    ghost view = { λ t. record { heads = t.heads; entries = t.entries } };
}

impl SlotIndex {
    pub(crate) fn new(alloc: Global) -> SlotIndex
        ensures now { result.now ≡ [] }
        ensures base { result.base ≡ nothing_indexed }
    {
        SlotIndex {
            buckets: Buckets {
                heads: UndoList::new(alloc),
                entries: UndoList::new(alloc),
            },
        }
    }

    /// How many slots there are.
    pub(crate) fn len(&self) -> usize
        ensures { result ≡ length self.now.now }
    {
        self.buckets.entries.as_slice().len()
    }

    /// The slot that has the number.
    pub(crate) fn get(&self, number: u32) -> Option<u32>
        ensures { result ≡ slot_of number self.now.now }
    {
        let width = self.buckets.heads.as_slice().len();
        if width == 0 {
            return None;
        }
        let first = head_of(self.buckets.heads.as_slice(), bucket_of(number, width));
        find_number(self.buckets.entries.as_slice(), first, number)
    }

    /// One more slot, without a number.
    pub(crate) fn grow(&mut self) -> Result<(), OutOfMemory>
        ensures now { (q : ℕ) → slot_of q self.new.now ≡ slot_of q self.old.now }
        ensures len { OnOk result (length self.new.now ≡ length self.old.now + 1) }
        ensures longer { length self.old.now ≤ length self.new.now }
        ensures grown { OnOk result (self.new.now ≡ self.old.now ++ None ∷ []) }
        ensures same { OnErr result (self.new.now ≡ self.old.now) }
        ensures base { self.new.base ≡ self.old.base }
        ensures capacity { self.new.capacity ≡ self.old.capacity }
    {
        self.buckets.entries.push(IndexEntry {
            number: None,
            same: MaybeSlot::none(),
        })?;
        Ok(())
    }

    // Four times as many buckets.
    #[cold]
    #[inline(never)]
    fn widen(&mut self) -> Result<(), OutOfMemory>
        requires { self.old.width ≤ length self.old.now }
        ensures now { self.new.now ≡ self.old.now }
        ensures width { OnOk result (0 < self.new.width) }
        ensures base { self.new.base ≡ self.old.base }
        ensures capacity { self.new.capacity ≡ self.old.capacity }
    {
        let slots = self.buckets.entries.as_slice().len();
        if slots > u32::MAX as usize {
            return Err(OutOfMemory);
        }
        let more = (3 * self.buckets.heads.as_slice().len()).max(FIRST_WIDTH);
        self.buckets.heads.ready(5 * slots + FIRST_WIDTH)?;
        self.buckets.heads.reserve(more)?;
        self.buckets.entries.ready(slots)?;
        empty(&mut self.buckets.heads);
        lengthen(&mut self.buckets.heads, more);
        self.buckets.chain_all(slots as u32);
        Ok(())
    }

    /// One number may go without memory.
    #[inline]
    pub(crate) fn ready_to_remove(&mut self) -> Result<(), OutOfMemory>
        ensures now { self.new.now ≡ self.old.now }
        ensures room { OnOk result (AreWithin (both 1 2) self.new.room) }
        ensures base { self.new.base ≡ self.old.base }
        ensures capacity { self.new.capacity ≡ self.old.capacity }
    {
        self.buckets.heads.ready(1)?;
        self.buckets.entries.ready(2)
    }

    /// One number may come without memory.
    #[inline]
    pub(crate) fn ready_to_insert(&mut self) -> Result<(), OutOfMemory>
        ensures now { self.new.now ≡ self.old.now }
        ensures width { OnOk result (0 < self.new.width) }
        ensures room { OnOk result (AreWithin (both 1 1) self.new.room) }
        ensures base { self.new.base ≡ self.old.base }
        ensures capacity { self.new.capacity ≡ self.old.capacity }
    {
        if self.buckets.heads.as_slice().len() <= self.buckets.entries.as_slice().len() {
            self.widen()?;
        }
        self.buckets.heads.ready(1)?;
        self.buckets.entries.ready(1)
    }

    /// The slot has the number from now on.
    pub(crate) fn insert(&mut self, number: u32, slot: u32)
        requires width { 0 < self.old.width }
        requires within { slot < length self.old.now }
        requires few { slot < 2 ^ 32 - 1 }
        requires absent { slot_of number self.old.now ≡ None }
        requires free { (q : ℕ) → slot_of q self.old.now ≢ Some slot }
        requires room { AreWithin (both 1 1) self.old.room }
        ensures now { (q : ℕ) → slot_of q self.new.now ≡ if number == q then Some slot else slot_of q self.old.now }
        ensures slots { self.new.now ≡ slice_set self.old.now slot (Some number) }
        ensures len { length self.new.now ≡ length self.old.now }
        ensures base { self.new.base ≡ self.old.base }
        ensures capacity { self.new.capacity ≡ self.old.capacity }
    {
        self.buckets.put_first(number, slot);
    }

    /// The slot of the number has none from now on.
    pub(crate) fn remove(&mut self, number: u32, slot: u32)
        requires slot { slot_of number self.old.now ≡ Some slot }
        requires room { AreWithin (both 1 2) self.old.room }
        ensures now { (q : ℕ) → slot_of q self.new.now ≡ if number == q then None else slot_of q self.old.now }
        ensures len { length self.new.now ≡ length self.old.now }
        ensures width { self.new.width ≡ self.old.width }
        ensures room { LeavesAll self.new.room (both 1 2) self.old.room }
        ensures base { self.new.base ≡ self.old.base }
        ensures capacity { self.new.capacity ≡ self.old.capacity }
    {
        let bucket = bucket_of(number, self.buckets.heads.as_slice().len());
        let first = head_of(self.buckets.heads.as_slice(), bucket);
        let before = find_before(self.buckets.entries.as_slice(), first, slot);
        let same = entry_of(self.buckets.entries.as_slice(), slot).same;
        set_same(&mut self.buckets.entries, before, same);
        let freed = IndexEntry {
            number: None,
            same: MaybeSlot::none(),
        };
        self.buckets.entries.set_ready(slot as usize, freed);
        self.buckets
            .heads
            .set_ready(bucket, where_none(before, same, first));
    }

    /// The changes go, and what comes back makes them again.
    pub(crate) fn undo(&mut self, alloc: Global) -> IndexRedo
        ensures now { self.new.now ≡ numbers_of self.old.base.entries }
        ensures base { self.new.base ≡ self.old.base }
        ensures capacity { self.new.capacity ≡ self.old.capacity }
        ensures fits { IndexFits result self.new.base self.new.capacity }
        ensures onto { numbers_of (indexing_after result self.new.base).entries ≡ self.old.now }
    {
        let heads = self.buckets.heads.undo(alloc);
        let entries = self.buckets.entries.undo(alloc);
        IndexRedo { heads, entries }
    }

    /// Whatever was changed goes, and the changes are made again and stay.
    pub(crate) fn redo(&mut self, redo: IndexRedo)
        requires { IndexFits redo self.old.base self.old.capacity }
        ensures base { self.new.base ≡ indexing_after redo self.old.base }
        ensures now { self.new.now ≡ numbers_of self.new.base.entries }
        ensures capacity { self.new.capacity ≡ index_room_after redo self.old.capacity }
    {
        let IndexRedo { heads, entries } = redo;
        self.buckets.heads.redo(heads);
        self.buckets.entries.redo(entries);
    }

    /// The changes stay.
    pub(crate) fn commit(&mut self)
        ensures now { self.new.now ≡ self.old.now }
        ensures base { numbers_of self.new.base.entries ≡ self.old.now }
    {
        self.buckets.heads.commit_short();
        self.buckets.entries.commit_short();
    }
}

//! The buckets of an index: a slot comes first in its bucket, and all slots are chained again.

ghost use Rattle.std.specs.Prelude.{◌≡◌, ◌<◌, ◌≤◌, ◌+◌, ◌-◌, ◌^◌, ℕ, suc, Some, None, length, slice_set};
ghost use Rattle.mdb_slots.specs.SlotIndex.{bucket_in, entry, head_at, numbers_of, number_at, masked, Single, IsIndex, base_of, capacity_of, room_of, both, AreWithin, LeavesAll};

use crate::index_entry::{IndexEntry, entry_of};
use crate::maybe_slot::MaybeSlot;
use crate::undo_list::UndoList;

/// The first slot of each bucket, and the entry of each slot.
#[derive(Drop)]
pub struct Buckets {
    pub heads: UndoList<MaybeSlot>,
    pub entries: UndoList<IndexEntry>,
}

/// The bucket of the number, of so many.
pub(crate) fn bucket_of(number: u32, width: usize) -> usize
    requires { 0 < width }
    ensures value { result ≡ bucket_in number width }
    ensures within { result < width }
{
    number as usize & (width - 1)
}

/// The first slot of the bucket.
#[inline]
pub(crate) fn head_of(heads: &[MaybeSlot], bucket: usize) -> MaybeSlot
    requires { bucket < length heads.now }
    ensures { result ≡ head_at heads.now bucket }
{
    heads[bucket]
}

/// No bucket has a slot.
pub(crate) fn empty(heads: &mut UndoList<MaybeSlot>)
    requires { length heads.old.now ≤ heads.old.room }
    ensures none { (b : ℕ) → head_at heads.new.now b ≡ None }
    ensures len { length heads.new.now ≡ length heads.old.now }
    ensures base { heads.new.base ≡ heads.old.base }
    ensures capacity { heads.new.capacity ≡ heads.old.capacity }
    ensures reach { heads.new.reach ≡ heads.old.reach }
    ensures room { heads.old.room ≤ heads.new.room + length heads.old.now }
{
    let width = heads.as_slice().len();
    for bucket in 0..width {
        heads.set_ready(bucket, MaybeSlot::none());
    }
}

/// So many more buckets, without slots.
pub(crate) fn lengthen(heads: &mut UndoList<MaybeSlot>, more: usize)
    requires none { (b : ℕ) → head_at heads.old.now b ≡ None }
    requires within { length heads.old.now + more ≤ heads.old.reach }
    requires room { more ≤ heads.old.room }
    ensures none { (b : ℕ) → head_at heads.new.now b ≡ None }
    ensures len { length heads.new.now ≡ length heads.old.now + more }
    ensures base { heads.new.base ≡ heads.old.base }
    ensures capacity { heads.new.capacity ≡ heads.old.capacity }
    ensures room { heads.old.room ≤ heads.new.room + more }
{
    for _bucket in 0..more {
        heads.push_ready(MaybeSlot::none());
    }
}

impl Buckets {
    /// The slot has the number, and comes first in its bucket.
    pub(crate) fn put_first(&mut self, number: u32, slot: u32)
        requires width { 0 < length self.old.heads.now }
        requires within { slot < length self.old.entries.now }
        requires few { slot < 2 ^ 32 - 1 }
        requires room { AreWithin (both 1 1) (room_of self.old) }
        ensures heads { self.new.heads.now ≡ slice_set self.old.heads.now (bucket_in number (length self.old.heads.now)) (Some slot) }
        ensures entries { self.new.entries.now ≡ slice_set self.old.entries.now slot (entry (Some number) (head_at self.old.heads.now (bucket_in number (length self.old.heads.now)))) }
        ensures base { base_of self.new ≡ base_of self.old }
        ensures capacity { capacity_of self.new ≡ capacity_of self.old }
        ensures room { LeavesAll (room_of self.new) (both 1 1) (room_of self.old) }
    {
        let bucket = bucket_of(number, self.heads.as_slice().len());
        let entry = IndexEntry {
            number: Some(number),
            same: self.heads.as_slice()[bucket],
        };
        self.entries.set_ready(slot as usize, entry);
        self.heads.set_ready(bucket, MaybeSlot::some(slot));
    }

    // The slot is chained, where it has a number.
    fn chain_slot(&mut self, slot: u32)
        requires width { 0 < length self.old.heads.now }
        requires within { slot < length self.old.entries.now }
        requires few { slot < 2 ^ 32 - 1 }
        requires room { AreWithin (both 1 1) (room_of self.old) }
        requires single { Single (numbers_of self.old.entries.now) }
        requires index { IsIndex self.old.heads.now self.old.entries.now (masked slot (numbers_of self.old.entries.now)) }
        ensures index { IsIndex self.new.heads.now self.new.entries.now (masked (suc slot) (numbers_of self.old.entries.now)) }
        ensures numbers { numbers_of self.new.entries.now ≡ numbers_of self.old.entries.now }
        ensures width { length self.new.heads.now ≡ length self.old.heads.now }
        ensures base { base_of self.new ≡ base_of self.old }
        ensures capacity { capacity_of self.new ≡ capacity_of self.old }
        ensures room { LeavesAll (room_of self.new) (both 1 1) (room_of self.old) }
    {
        match entry_of(self.entries.as_slice(), slot).number {
            Some(number) => self.put_first(number, slot),
            None => {}
        }
    }

    /// All slots that have a number are chained.
    pub(crate) fn chain_all(&mut self, slots: u32)
        requires slots { slots ≡ length self.old.entries.now }
        requires width { 0 < length self.old.heads.now }
        requires none { (b : ℕ) → head_at self.old.heads.now b ≡ None }
        requires room { AreWithin (both slots slots) (room_of self.old) }
        requires single { Single (numbers_of self.old.entries.now) }
        ensures index { IsIndex self.new.heads.now self.new.entries.now (numbers_of self.new.entries.now) }
        ensures numbers { numbers_of self.new.entries.now ≡ numbers_of self.old.entries.now }
        ensures width { length self.new.heads.now ≡ length self.old.heads.now }
        ensures base { base_of self.new ≡ base_of self.old }
        ensures capacity { capacity_of self.new ≡ capacity_of self.old }
    {
        for slot in 0..slots {
            self.chain_slot(slot);
        }
    }
}

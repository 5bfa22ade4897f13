//! The entries of an index, and the chains through them.

ghost use Rattle.std.specs.Prelude.{◌≡◌, ◌<◌, ◌≤◌, ◌+◌, length, None, IfSome};
ghost use Rattle.mdb_slots.specs.Lists.{previous};
ghost use Rattle.mdb_slots.specs.SlotIndex.{Linked, trail, seek, lead_same, place_at, is_number};

use crate::maybe_slot::MaybeSlot;
use crate::undo_list::UndoList;

/// The number of a slot, and the next slot whose number has the same bucket.
#[derive(Clone, Copy)]
pub struct IndexEntry {
    pub number: Option<u32>,
    pub same: MaybeSlot,
}

/// The entry of the slot.
#[inline]
pub(crate) fn entry_of(entries: &[IndexEntry], slot: u32) -> &IndexEntry
    requires { slot < length entries.now }
    ensures { result.now ≡ place_at entries.now slot }
{
    &entries[slot as usize]
}

fn has_number(entry: &IndexEntry, number: u32) -> bool
    ensures { result ≡ is_number number entry.now.number }
{
    match entry.number {
        Some(found) => found == number,
        None => false,
    }
}

/// The slot of the chain that has the number.
pub(crate) fn find_number(entries: &[IndexEntry], first: MaybeSlot, number: u32) -> Option<u32>
    requires { Linked entries.now first (trail (length entries.now) first entries.now) None }
    ensures { result ≡ seek number entries.now (trail (length entries.now) first entries.now) }
{
    let mut at = first;
    while let Some(slot) = at.get() {
        let entry = entry_of(entries, slot);
        if has_number(entry, number) {
            return Some(slot);
        }
        at = entry.same;
    }
    None
}

/// The slot of the chain that leads to this one.
pub(crate) fn find_before(entries: &[IndexEntry], first: MaybeSlot, wanted: u32) -> MaybeSlot
    requires { Linked entries.now first (trail (length entries.now) first entries.now) None }
    ensures { result ≡ previous None wanted (trail (length entries.now) first entries.now) }
{
    let mut before = MaybeSlot::none();
    let mut at = first;
    while let Some(slot) = at.get() {
        if slot == wanted {
            return before;
        }
        before = at;
        at = entry_of(entries, slot).same;
    }
    MaybeSlot::none()
}

/// The slot there, if there is one, leads to `same` from now on.
pub(crate) fn set_same(entries: &mut UndoList<IndexEntry>, at: MaybeSlot, same: MaybeSlot)
    requires within { IfSome at (λ k. k < length entries.old.now) }
    requires room { 0 < entries.old.room }
    ensures now { entries.new.now ≡ lead_same at same entries.old.now }
    ensures base { entries.new.base ≡ entries.old.base }
    ensures capacity { entries.new.capacity ≡ entries.old.capacity }
    ensures room { entries.old.room ≤ entries.new.room + 1 }
{
    if let Some(at) = at.get() {
        let entry = entries.as_slice()[at as usize];
        entries.set_ready(at as usize, IndexEntry { same, ..entry });
    }
}

//! Records in the order in which they came, each in a slot that is used again.

ghost use Rattle.std.specs.Prelude.{◌≡◌, ◌+◌, ◌-◌, ◌^◌, ◌<◌, ◌≤◌, ◌++◌, ◌∷◌, [], ℕ, Some, None, true, false, length, OnOk, if◌then◌else◌};
ghost use Rattle.mdb_slots.specs.Lists.{apart};
ghost use Rattle.mdb_slots.specs.Items.{item, lists, dropped, oldest_of, newest_of, newer, older, slots_of};
ghost use Rattle.mdb_slots.specs.Slots.{listing};

use crate::naming::named;
use crate::records::{Record, SlotRef};
use crate::slots::Slots;
use crate::touches::Touches;
use mdb_base::{Moment, ObjectId, OutOfMemory};
use std::alloc::Global;

/// The records, oldest first, and how many more may come without memory. Its changes stay.
pub type SlotTable = Slots<Record>;

impl Slots<Record> {
    /// No records. It takes no memory.
    pub fn new(alloc: Global) -> SlotTable
        ensures items { (listing result).items ≡ [] }
        ensures spare { (listing result).spare ≡ 0 }
    {
        Slots::empty(alloc)
    }

    /// How many records there are.
    pub fn len(&self) -> usize
        ensures value { result ≡ length (listing self.now).items }
        ensures apart { apart (slots_of (listing self.now).items) ≡ true }
    {
        self.size()
    }

    /// How many records may come without memory.
    pub fn spare(&self) -> usize
        ensures { result ≡ (listing self.now).spare }
    {
        self.free()
    }

    /// At least so many records may come from now on without memory.
    pub fn reserve(&mut self, more: usize) -> Result<(), OutOfMemory>
        requires { length (listing self.old).items + more < 2 ^ 32 }
        ensures items { (listing self.new).items ≡ (listing self.old).items }
        ensures spare { OnOk result (more ≤ (listing self.new).spare) }
        ensures kept { (listing self.old).spare ≤ (listing self.new).spare }
    {
        while self.free() < more {
            self.grow()?;
            self.commit();
        }
        Ok(())
    }

    /// The record that came last.
    pub fn newest(&self, touches: &mut Touches) -> Option<SlotRef>
        requires { touches.old.count < 2 ^ 64 - 8 }
        ensures value { result ≡ newest_of (listing self.now).items }
        ensures counts { touches.new.count ≤ touches.old.count + 8 }
        ensures counted { touches.old.count ≤ touches.new.count }
    {
        named(self, self.last(), touches)
    }

    /// The record that came first of those that are left.
    pub fn oldest(&self, touches: &mut Touches) -> Option<SlotRef>
        requires { touches.old.count < 2 ^ 64 - 8 }
        ensures value { result ≡ oldest_of (listing self.now).items }
        ensures counts { touches.new.count ≤ touches.old.count + 8 }
        ensures counted { touches.old.count ≤ touches.new.count }
    {
        named(self, self.first(), touches)
    }

    /// The record is in the table.
    pub fn contains(&self, at: SlotRef, touches: &mut Touches) -> bool
        requires { touches.old.count < 2 ^ 64 - 8 }
        ensures value { result ≡ lists at (listing self.now).items }
        ensures counts { touches.new.count ≤ touches.old.count + 1 }
        ensures counted { touches.old.count ≤ touches.new.count }
    {
        match self.value(at.slot, touches) {
            Some(held) => held.id == at.id,
            None => false,
        }
    }

    /// The next newer record. `None` where there is none, or the record is not in the table.
    pub fn after(&self, at: SlotRef, touches: &mut Touches) -> Option<SlotRef>
        requires { touches.old.count < 2 ^ 64 - 8 }
        ensures value { result ≡ newer at (listing self.now).items }
        ensures counts { touches.new.count ≤ touches.old.count + 8 }
        ensures counted { touches.old.count ≤ touches.new.count }
    {
        if !self.contains(at, touches) {
            return None;
        }
        let next = self.next(at.slot, touches);
        named(self, next, touches)
    }

    /// The next older record. `None` where there is none, or the record is not in the table.
    pub fn before(&self, at: SlotRef, touches: &mut Touches) -> Option<SlotRef>
        requires { touches.old.count < 2 ^ 64 - 8 }
        ensures value { result ≡ older at (listing self.now).items }
        ensures counts { touches.new.count ≤ touches.old.count + 8 }
        ensures counted { touches.old.count ≤ touches.new.count }
    {
        if !self.contains(at, touches) {
            return None;
        }
        let previous = self.previous(at.slot, touches);
        named(self, previous, touches)
    }

    /// A record comes as the newest. It takes no memory.
    pub fn push(
        &mut self,
        id: u32,
        service: Option<ObjectId>,
        since: Moment,
        touches: &mut Touches,
    ) -> SlotRef
        requires spare { 0 < (listing self.old).spare }
        requires few { touches.old.count < 2 ^ 64 - 8 }
        ensures items { (listing self.new).items ≡ (listing self.old).items ++ item result.slot id service since ∷ [] }
        ensures spare { (listing self.new).spare + 1 ≡ (listing self.old).spare }
        ensures id { result.id ≡ id }
        ensures counts { touches.new.count ≤ touches.old.count + 8 }
        ensures counted { touches.old.count ≤ touches.new.count }
    {
        let slot = self.bring(Record { id, service, since }, true, touches);
        SlotRef { slot, id }
    }

    /// The record goes, and its slot may be used again. False where it is not in the table. It takes no memory.
    pub fn remove(&mut self, at: SlotRef, touches: &mut Touches) -> bool
        requires { touches.old.count < 2 ^ 64 - 8 }
        ensures value { result ≡ lists at (listing self.old).items }
        ensures items { (listing self.new).items ≡ dropped at (listing self.old).items }
        ensures spare { (listing self.new).spare ≡ (listing self.old).spare + (if result then 1 else 0) }
        ensures counts { touches.new.count ≤ touches.old.count + 8 }
        ensures counted { touches.old.count ≤ touches.new.count }
    {
        if !self.contains(at, touches) {
            return false;
        }
        self.take(at.slot, true, touches);
        true
    }
}

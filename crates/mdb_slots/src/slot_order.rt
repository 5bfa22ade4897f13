//! The order of the slots in use, whose changes can be taken back and made again.

ghost use Rattle.std.specs.Prelude.{◌≡◌, ◌+◌, ◌-◌, ◌^◌, ◌<◌, ◌≤◌, ◌++◌, ◌∷◌, [], None, true, false, length, OnOk};
ghost use Rattle.mdb_slots.specs.Lists.{has, apart, without, head_or, last_or, next, previous};
ghost use Rattle.mdb_slots.specs.SlotOrder.{nothing_laid, order_of, laid_after, order_room_after, OrderFits};

use crate::ends::{Ends, lasting, where_none};
use crate::maybe_slot::MaybeSlot;
use crate::node::{Node, node_of, set_after, set_before};
use crate::touches::Touches;
use crate::undo_list::{Redo, UndoList};
use crate::visits::write;
use mdb_base::OutOfMemory;
use std::alloc::Global;
use std::marker::Model;

/// The order of the slots in use, linked both ways through the nodes.
#[derive(Drop)]
pub struct SlotOrder {
    nodes: UndoList<Node>,
    ends: Ends,
    was: Ends,
}

impl Model for SlotOrder {
    ghost use Rattle.mdb_slots.specs.SlotOrder.{OpenOrder, KeepsOrder, order_of};

    ghost Value = { OpenOrder };

    ghost view = { λ t. record { now = order_of (record { nodes = t.nodes.now; ends = t.ends }); base = record { nodes = t.nodes.base; ends = t.was }; capacity = t.nodes.capacity; room = t.nodes.room } };

    ghost invariant = { λ t. KeepsOrder (record { nodes = t.nodes.now; ends = t.ends }) × KeepsOrder (record { nodes = t.nodes.base; ends = t.was }) };
}

/// Changes of an order that were taken back, to be made again.
#[derive(Drop)]
pub struct OrderRedo {
    nodes: Redo<Node>,
    ends: Ends,
}

impl Model for OrderRedo {
    ghost use Rattle.mdb_slots.specs.SlotOrder.{OrderSteps};

    ghost Value = { OrderSteps };

    ghost view = { λ t. record { nodes = t.nodes; ends = t.ends } };
}

impl SlotOrder {
    pub(crate) fn new(alloc: Global) -> SlotOrder
        ensures used { result.now.used ≡ [] }
        ensures spare { result.now.spare ≡ 0 }
        ensures base { result.base ≡ nothing_laid }
    {
        SlotOrder {
            nodes: UndoList::new(alloc),
            ends: Ends::new(),
            was: Ends::new(),
        }
    }

    pub(crate) fn len(&self) -> usize
        ensures value { result ≡ length self.now.now.used }
        ensures apart { apart self.now.now.used ≡ true }
        ensures few { length self.now.now.used + self.now.now.spare < 2 ^ 32 }
    {
        self.ends.len
    }

    pub(crate) fn spare(&self) -> usize
        ensures { result ≡ self.now.now.spare }
    {
        self.ends.spare
    }

    pub(crate) fn first(&self) -> Option<u32>
        ensures { result ≡ head_or None self.now.now.used }
    {
        self.ends.first.get()
    }

    pub(crate) fn last(&self) -> Option<u32>
        ensures { result ≡ last_or None self.now.now.used }
    {
        self.ends.last.get()
    }

    /// The slot that came after this one.
    pub(crate) fn after(&self, at: u32, touches: &mut Touches) -> Option<u32>
        requires member { has at self.now.now.used ≡ true }
        requires few { touches.old.count < 2 ^ 64 - 1 }
        ensures value { result ≡ next at self.now.now.used }
        ensures counts { touches.new.count ≤ touches.old.count + 1 }
        ensures counted { touches.old.count ≤ touches.new.count }
    {
        node_of(&self.nodes, at, touches).after.get()
    }

    /// The slot that came before this one.
    pub(crate) fn before(&self, at: u32, touches: &mut Touches) -> Option<u32>
        requires member { has at self.now.now.used ≡ true }
        requires few { touches.old.count < 2 ^ 64 - 1 }
        ensures value { result ≡ previous None at self.now.now.used }
        ensures counts { touches.new.count ≤ touches.old.count + 1 }
        ensures counted { touches.old.count ≤ touches.new.count }
    {
        node_of(&self.nodes, at, touches).before.get()
    }

    /// So many changes of nodes may come without memory.
    pub(crate) fn ready(&mut self, changes: usize) -> Result<(), OutOfMemory>
        ensures now { self.new.now ≡ self.old.now }
        ensures base { self.new.base ≡ self.old.base }
        ensures capacity { self.new.capacity ≡ self.old.capacity }
        ensures room { OnOk result (changes ≤ self.new.room) }
    {
        self.nodes.ready(changes)
    }

    /// One more slot may be used.
    pub(crate) fn grow(&mut self) -> Result<(), OutOfMemory>
        requires { length self.old.now.used + self.old.now.spare < 2 ^ 32 - 1 }
        ensures used { self.new.now.used ≡ self.old.now.used }
        ensures spare { OnOk result (self.new.now.spare ≡ self.old.now.spare + 1) }
        ensures kept { self.old.now.spare ≤ self.new.now.spare }
        ensures bound { self.new.now.spare ≤ self.old.now.spare + 1 }
        ensures base { self.new.base ≡ self.old.base }
        ensures capacity { self.new.capacity ≡ self.old.capacity }
    {
        let at = self.nodes.as_slice().len() as u32;
        self.nodes.push(Node {
            before: MaybeSlot::none(),
            after: self.ends.free,
            used: false,
        })?;
        self.ends.free = MaybeSlot::some(at);
        self.ends.spare += 1;
        Ok(())
    }

    /// Takes a free slot, as the newest in use. Where it stays, so do all changes before it.
    pub(crate) fn push(&mut self, stays: bool, touches: &mut Touches) -> u32
        requires spare { 0 < self.old.now.spare }
        requires room { stays ≡ false → 1 < self.old.room }
        requires few { touches.old.count < 2 ^ 64 - 4 }
        ensures used { self.new.now.used ≡ self.old.now.used ++ result ∷ [] }
        ensures spare { self.new.now.spare + 1 ≡ self.old.now.spare }
        ensures new { has result self.old.now.used ≡ false }
        ensures within { result < length self.old.now.used + self.old.now.spare }
        ensures few { result < 2 ^ 32 - 1 }
        ensures open { stays ≡ false → (self.new.base ≡ self.old.base) × (self.new.capacity ≡ self.old.capacity) }
        ensures lasts { stays ≡ true → order_of self.new.base ≡ self.new.now }
        ensures counts { touches.new.count ≤ touches.old.count + 4 }
        ensures counted { touches.old.count ≤ touches.new.count }
    {
        let free = self.ends.free;
        let at = free.get().unwrap();
        let node = node_of(&self.nodes, at, touches);
        set_after(&mut self.nodes, self.ends.last, free, stays, touches);
        let newest = Node {
            before: self.ends.last,
            after: MaybeSlot::none(),
            used: true,
        };
        write(&mut self.nodes, at, newest, stays, touches);
        self.ends = Ends {
            first: where_none(self.ends.last, free, self.ends.first),
            last: free,
            free: node.after,
            len: self.ends.len + 1,
            spare: self.ends.spare - 1,
        };
        lasting(stays, &self.ends, &mut self.was);
        at
    }

    /// The slot is free from now on. Where that stays, so do all changes before it.
    pub(crate) fn remove(&mut self, at: u32, stays: bool, touches: &mut Touches)
        requires member { has at self.old.now.used ≡ true }
        requires room { stays ≡ false → 2 < self.old.room }
        requires few { touches.old.count < 2 ^ 64 - 6 }
        ensures used { self.new.now.used ≡ without at self.old.now.used }
        ensures spare { self.new.now.spare ≡ self.old.now.spare + 1 }
        ensures open { stays ≡ false → (self.new.base ≡ self.old.base) × (self.new.capacity ≡ self.old.capacity) }
        ensures lasts { stays ≡ true → order_of self.new.base ≡ self.new.now }
        ensures room { self.old.room ≤ self.new.room + 3 }
        ensures counts { touches.new.count ≤ touches.old.count + 6 }
        ensures counted { touches.old.count ≤ touches.new.count }
    {
        let node = node_of(&self.nodes, at, touches);
        set_after(&mut self.nodes, node.before, node.after, stays, touches);
        set_before(&mut self.nodes, node.after, node.before, stays, touches);
        let freed = Node {
            before: MaybeSlot::none(),
            after: self.ends.free,
            used: false,
        };
        write(&mut self.nodes, at, freed, stays, touches);
        self.ends = Ends {
            first: where_none(node.before, node.after, self.ends.first),
            last: where_none(node.after, node.before, self.ends.last),
            free: MaybeSlot::some(at),
            len: self.ends.len - 1,
            spare: self.ends.spare + 1,
        };
        lasting(stays, &self.ends, &mut self.was);
    }

    /// The slot is the newest in use from now on. The change can be taken back.
    pub(crate) fn renew(&mut self, at: u32, touches: &mut Touches)
        requires member { has at self.old.now.used ≡ true }
        requires room { 3 < self.old.room }
        requires few { touches.old.count < 2 ^ 64 - 8 }
        ensures used { self.new.now.used ≡ without at self.old.now.used ++ at ∷ [] }
        ensures spare { self.new.now.spare ≡ self.old.now.spare }
        ensures base { self.new.base ≡ self.old.base }
        ensures capacity { self.new.capacity ≡ self.old.capacity }
        ensures counts { touches.new.count ≤ touches.old.count + 8 }
        ensures counted { touches.old.count ≤ touches.new.count }
    {
        let node = node_of(&self.nodes, at, touches);
        match node.after.get() {
            Some(_) => {
                set_after(&mut self.nodes, node.before, node.after, false, touches);
                set_before(&mut self.nodes, node.after, node.before, false, touches);
                let renewed = MaybeSlot::some(at);
                set_after(&mut self.nodes, self.ends.last, renewed, false, touches);
                let newest = Node {
                    before: self.ends.last,
                    after: MaybeSlot::none(),
                    used: true,
                };
                write(&mut self.nodes, at, newest, false, touches);
                self.ends.first = where_none(node.before, node.after, self.ends.first);
                self.ends.last = renewed;
            }
            None => {}
        }
    }

    /// The changes go, and what comes back makes them again.
    pub(crate) fn undo(&mut self, alloc: Global) -> OrderRedo
        ensures now { self.new.now ≡ order_of self.old.base }
        ensures base { self.new.base ≡ self.old.base }
        ensures capacity { self.new.capacity ≡ self.old.capacity }
        ensures fits { OrderFits result self.new.base self.new.capacity }
        ensures onto { order_of (laid_after result self.new.base) ≡ self.old.now }
    {
        let nodes = self.nodes.undo(alloc);
        let ends = self.ends;
        self.ends = self.was;
        OrderRedo { nodes, ends }
    }

    /// Whatever was changed goes, and the changes are made again and stay.
    pub(crate) fn redo(&mut self, redo: OrderRedo)
        requires { OrderFits redo self.old.base self.old.capacity }
        ensures base { self.new.base ≡ laid_after redo self.old.base }
        ensures now { self.new.now ≡ order_of self.new.base }
        ensures capacity { self.new.capacity ≡ order_room_after redo self.old.capacity }
    {
        let OrderRedo { nodes, ends } = redo;
        self.nodes.redo(nodes);
        self.ends = ends;
        self.was = self.ends;
    }

    /// The changes stay.
    pub(crate) fn commit(&mut self)
        ensures now { self.new.now ≡ self.old.now }
        ensures base { order_of self.new.base ≡ self.old.now }
        ensures room { self.old.room ≤ self.new.room }
    {
        self.nodes.commit();
        self.was = self.ends;
    }
}

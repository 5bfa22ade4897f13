//! The nodes of a chain, whose changes can be taken back.

ghost use Rattle.std.specs.Prelude.{◌≡◌, ◌+◌, ◌-◌, ◌^◌, ◌<◌, ◌≤◌, false, length, IfSome};
ghost use Rattle.mdb_slots.specs.Chain.{node_at, lead_to, lead_back};
ghost use Rattle.mdb_slots.specs.Open.{GoesBack};

use crate::maybe_slot::MaybeSlot;
use crate::touches::Touches;
use crate::undo_list::UndoList;
use crate::visits::{read, write};

/// The neighbours of a slot in the chain.
#[derive(Clone, Copy)]
pub struct Node {
    pub before: MaybeSlot,
    pub after: MaybeSlot,
    pub used: bool,
}

pub(crate) fn node_of(nodes: &UndoList<Node>, at: u32, touches: &mut Touches) -> Node
    requires within { at < length nodes.now.now }
    requires few { touches.old.count < 2 ^ 64 - 1 }
    ensures value { result ≡ node_at nodes.now.now at }
    ensures counts { touches.new.count ≡ touches.old.count + 1 }
{
    *read(nodes, at, touches)
}

/// The node there, if there is one, is followed by `after` from now on.
pub(crate) fn set_after(
    nodes: &mut UndoList<Node>,
    at: MaybeSlot,
    after: MaybeSlot,
    stays: bool,
    touches: &mut Touches,
)
    requires within { IfSome at (λ k. k < length nodes.old.now) }
    requires room { stays ≡ false → 0 < nodes.old.room }
    requires few { touches.old.count < 2 ^ 64 - 2 }
    ensures now { nodes.new.now ≡ lead_to at after nodes.old.now }
    ensures open { stays ≡ false → GoesBack nodes.old nodes.new }
    ensures room { nodes.old.room ≤ nodes.new.room + 1 }
    ensures counts { touches.new.count ≤ touches.old.count + 2 }
    ensures counted { touches.old.count ≤ touches.new.count }
{
    if let Some(at) = at.get() {
        let node = node_of(nodes, at, touches);
        write(nodes, at, Node { after, ..node }, stays, touches);
    }
}

/// The node there, if there is one, is preceded by `before` from now on.
pub(crate) fn set_before(
    nodes: &mut UndoList<Node>,
    at: MaybeSlot,
    before: MaybeSlot,
    stays: bool,
    touches: &mut Touches,
)
    requires within { IfSome at (λ k. k < length nodes.old.now) }
    requires room { stays ≡ false → 0 < nodes.old.room }
    requires few { touches.old.count < 2 ^ 64 - 2 }
    ensures now { nodes.new.now ≡ lead_back at before nodes.old.now }
    ensures open { stays ≡ false → GoesBack nodes.old nodes.new }
    ensures room { nodes.old.room ≤ nodes.new.room + 1 }
    ensures counts { touches.new.count ≤ touches.old.count + 2 }
    ensures counted { touches.old.count ≤ touches.new.count }
{
    if let Some(at) = at.get() {
        let node = node_of(nodes, at, touches);
        write(nodes, at, Node { before, ..node }, stays, touches);
    }
}

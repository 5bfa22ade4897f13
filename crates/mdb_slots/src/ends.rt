//! The ends of the chains through the nodes.

ghost use Rattle.std.specs.Prelude.{◌≡◌, if◌then◌else◌};
ghost use Rattle.mdb_slots.specs.Links.{where_none};

use crate::maybe_slot::MaybeSlot;

/// Where the chains begin and end, and how long they are.
#[derive(Clone, Copy)]
pub struct Ends {
    pub first: MaybeSlot,
    pub last: MaybeSlot,
    pub free: MaybeSlot,
    pub len: usize,
    pub spare: usize,
}

impl Ends {
    ghost use Rattle.std.specs.Prelude.{◌≡◌};
    ghost use Rattle.mdb_slots.specs.SlotOrder.{no_ends};

    pub(crate) fn new() -> Ends
        ensures { result ≡ no_ends }
    {
        Ends {
            first: MaybeSlot::none(),
            last: MaybeSlot::none(),
            free: MaybeSlot::none(),
            len: 0,
            spare: 0,
        }
    }
}

/// The one where there is nothing, the other elsewhere.
pub(crate) fn where_none(test: MaybeSlot, one: MaybeSlot, other: MaybeSlot) -> MaybeSlot
    ensures { result ≡ where_none test one other }
{
    match test.get() {
        None => one,
        Some(_) => other,
    }
}

/// The ends that a change leads back to are those of now, where it stays.
pub(crate) fn lasting(stays: bool, now: &Ends, was: &mut Ends)
    ensures { was.new ≡ (if stays then now.now else was.old) }
{
    if stays {
        *was = *now;
    }
}

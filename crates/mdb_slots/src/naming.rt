//! The names of the records in slots.

ghost use Rattle.std.specs.Prelude.{◌≡◌, ◌+◌, ◌-◌, ◌^◌, ◌<◌, ◌≤◌, true, IfSome};
ghost use Rattle.mdb_slots.specs.Lists.{has};
ghost use Rattle.mdb_slots.specs.Items.{name_at};

use crate::records::{Record, SlotRef};
use crate::slots::Slots;
use crate::touches::Touches;

/// The name of the record in the slot, if there is one.
pub(crate) fn named(
    slots: &Slots<Record>,
    slot: Option<u32>,
    touches: &mut Touches,
) -> Option<SlotRef>
    requires member { IfSome slot (λ k. has k slots.now.order.used ≡ true) }
    requires few { touches.old.count < 2 ^ 64 - 1 }
    ensures value { result ≡ name_at slots.now.cells slot }
    ensures counts { touches.new.count ≤ touches.old.count + 1 }
    ensures counted { touches.old.count ≤ touches.new.count }
{
    let slot = slot?;
    let held = slots.value(slot, touches)?;
    Some(SlotRef { slot, id: held.id })
}

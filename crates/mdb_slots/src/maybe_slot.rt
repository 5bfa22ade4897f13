//! A slot or none, in four bytes.

ghost use Rattle.std.specs.Prelude.{◌≡◌, ◌<◌, ◌-◌, ◌^◌, None, Some};

use std::marker::Model;

/// A slot, or none. All ones stand for none.
#[derive(Clone, Copy)]
pub struct MaybeSlot {
    bits: u32,
}

impl Model for MaybeSlot {
    ghost use Rattle.std.specs.Prelude.{ℕ, Option};
    ghost use Rattle.mdb_slots.specs.MaybeSlot.{slot_in, bits_of, bits_of-slot_in};

    ghost Value = { Option ℕ };

    ghost view = { λ s. slot_in s.bits };

    ghost inverse = { λ o. record { bits = bits_of o } };

    ghost inverse_ok = { λ s h i. record { bits = bits_of-slot_in s.bits i } };
}

impl MaybeSlot {
    /// No slot.
    #[inline]
    pub(crate) fn none() -> MaybeSlot
        ensures { result ≡ None }
    {
        MaybeSlot { bits: u32::MAX }
    }

    /// This slot.
    #[inline]
    pub(crate) fn some(slot: u32) -> MaybeSlot
        requires { slot < 2 ^ 32 - 1 }
        ensures { result ≡ Some slot }
    {
        MaybeSlot { bits: slot }
    }

    /// The slot, if there is one.
    #[inline]
    pub(crate) fn get(self) -> Option<u32>
        ensures { result ≡ self }
    {
        if self.bits == u32::MAX {
            return None;
        }
        Some(self.bits)
    }
}

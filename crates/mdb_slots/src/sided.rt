//! Values with a moment, some of which stand on the left or on the right of their table.

ghost use Rattle.std.specs.Prelude.{◌≡◌};
ghost use Rattle.mdb_slots.specs.Sided.{record_of};

use crate::keyed::Keyed;
use crate::records::Record;

/// A value that is named by a number, has a record, and may stand on the left and on the right.
pub trait Sided: Keyed {
    ghost use Rattle.std.specs.Prelude.{ℕ, Bool, Option};
    ghost use Rattle.mdb_base.specs.declared.object_id.ObjectId.{ObjectId};

    ghost service: { Self → Option ObjectId };

    ghost since: { Self → ℕ };

    ghost on_left: { Self → Bool };

    ghost on_right: { Self → Bool };

    /// What is listed of it.
    fn record(&self) -> Record
        ensures { result ≡ record_of Self.key service since self.now };

    fn on_left(&self) -> bool
        ensures { result ≡ on_left self.now };

    fn on_right(&self) -> bool
        ensures { result ≡ on_right self.now };
}

impl Keyed for Record {
    ghost key = { λ x. x.id };

    fn key(&self) -> u32 {
        self.id
    }
}

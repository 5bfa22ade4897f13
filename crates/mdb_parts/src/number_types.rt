//! That numbers are those of their types.

ghost use Rattle.std.specs.Prelude.{◌<◌, ◌^◌, IfSome, FitsSigned, ℕ, slice_index};
ghost use Rattle.std.specs.Int.{w64};
ghost use Rattle.mdb_parts.specs.Types.{IsIdOfTypes};

use mdb_base::ObjectId;

/// A number of 32 bits, if it is there.
pub fn narrow(number: Option<u32>)
    ensures { IfSome number (λ n. n < 2 ^ 32) }
{
    match number {
        Some(_n) => {}
        None => {}
    }
}

/// A number of 64 bits, if it is there.
pub fn wide(number: Option<u64>)
    ensures { IfSome number (λ n. n < 2 ^ 64) }
{
    match number {
        Some(_n) => {}
        None => {}
    }
}

/// A number of 64 bits with a sign, if it is there.
pub fn signed(number: Option<i64>)
    ensures { IfSome number (FitsSigned w64) }
{
    match number {
        Some(_n) => {}
        None => {}
    }
}

fn bytes(bytes: &[u8])
    ensures { (i : ℕ) → slice_index bytes.now i < 256 }
{}

/// An id has twelve bytes.
pub fn id_types(id: &ObjectId)
    ensures { IsIdOfTypes id.now }
{
    let held: &[u8] = &id.0;
    let _len = held.len();
    bytes(held);
}

/// An id, if it is there.
pub fn optional_id(id: Option<ObjectId>)
    ensures { IfSome id IsIdOfTypes }
{
    match id {
        Some(id) => id_types(&id),
        None => {}
    }
}

//! Bytes and numbers at the front.

ghost use Rattle.std.specs.Prelude.{◌≡◌, IfOk, length, option_map};
ghost use Rattle.mdb_bson.specs.Reading.{Gives, joined, front, length_at, int32, int64};

use crate::fault::{Fault, Stop};

/// The first byte, and those behind it.
pub fn first(bytes: &[u8]) -> Option<(u8, &[u8])>
    ensures { bytes.now ≡ joined (option_map (λ x. (x.0, x.1.now)) result) }
{
    match bytes {
        [] => None,
        [own, rest @ ..] => Some((*own, rest)),
    }
}

/// So many bytes, and those behind them.
pub fn front(bytes: &[u8], count: usize) -> Result<(&[u8], &[u8]), Stop>
    ensures gives { Gives (λ x. (x.0.now, x.1.now)) result (front count bytes.now) }
    ensures count { IfOk result (λ x. length x.0.now ≡ count) }
{
    if bytes.len() < count {
        return Err(Stop::Bad(Fault::Short, bytes.len()));
    }
    Ok(bytes.split_at(count))
}

/// A length, as four bytes have it.
#[tactic(auto, unfolding(crate::specs::Reading::length_at))]
pub fn length_at(bytes: &[u8]) -> Result<(u32, &[u8]), Stop>
    ensures { Gives (λ x. (x.0, x.1.now)) result (length_at bytes.now) }
{
    let (own, rest) = front(bytes, 4)?;
    Ok((u32::from_le_bytes([own[0], own[1], own[2], own[3]]), rest))
}

/// A number of four bytes.
#[tactic(auto, unfolding(crate::specs::Reading::int32))]
pub fn int32(bytes: &[u8]) -> Result<(i32, &[u8]), Stop>
    ensures { Gives (λ x. (x.0, x.1.now)) result (int32 bytes.now) }
{
    let (own, rest) = front(bytes, 4)?;
    Ok((i32::from_le_bytes([own[0], own[1], own[2], own[3]]), rest))
}

/// A number of eight bytes.
#[tactic(auto, unfolding(crate::specs::Reading::int64))]
pub fn int64(bytes: &[u8]) -> Result<(i64, &[u8]), Stop>
    ensures { Gives (λ x. (x.0, x.1.now)) result (int64 bytes.now) }
{
    let (own, rest) = front(bytes, 8)?;
    let number = i64::from_le_bytes([
        own[0], own[1], own[2], own[3], own[4], own[5], own[6], own[7],
    ]);
    Ok((number, rest))
}

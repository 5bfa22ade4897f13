//! What stands behind the names of events: an address, and numbers.

ghost use Rattle.std.specs.Prelude.{◌≡◌, ◌<◌, ◌^◌, ◌++◌, ℕ, codes, decimal, true};
ghost use Rattle.mdb_base.specs.AddressRule.{is_address};
ghost use Rattle.mdb_base.specs.Spelling.{address};
ghost use Rattle.mdb_base.specs.declared.address.ServerAddress.{ServerAddress};
ghost use Rattle.mdb_parts.specs.Reading.{Gives};

use mdb_base::{Moment, ServerAddress};
use mdb_parts::LineError;
use mdb_parts::fields::u32_field;
use mdb_parts::values::address_word;
use mdb_parts::words::{field, last, number32, number64};
use std::alloc::Global;

/// An address alone.
pub fn address_alone(alloc: Global, text: &str) -> Result<ServerAddress, LineError>
    ensures { (a : ServerAddress) → is_address a ≡ true → text.now ≡ codes " " ++ address a → Gives a result }
{
    let word = last(text, " ")?;
    address_word(alloc, word)
}

/// An address and a connection.
#[tactic(auto, using(mdb_parts::proofs::TextLemmas::follows, mdb_parts::proofs::AddressLemmas::address_lacks))]
pub fn connection(alloc: Global, text: &str) -> Result<(ServerAddress, u32), LineError>
    ensures { (a : ServerAddress) (c : ℕ) → is_address a ≡ true → c < 2 ^ 32 → text.now ≡ codes " " ++ (address a ++ (codes " " ++ decimal c)) → Gives (a, c) result }
{
    let (place, rest) = field(text, " ")?;
    let word = last(rest, " ")?;
    let id = number32(word).ok_or(LineError::Bad)?;
    let address = address_word(alloc, place)?;
    Ok((address, id))
}

/// An address, a connection and milliseconds.
#[tactic(auto, using(mdb_parts::proofs::TextLemmas::follows, mdb_parts::proofs::AddressLemmas::address_lacks))]
pub fn timed(alloc: Global, text: &str) -> Result<(ServerAddress, u32, Moment), LineError>
    ensures { (a : ServerAddress) (c m : ℕ) → is_address a ≡ true → c < 2 ^ 32 → m < 2 ^ 64
        → text.now ≡ codes " " ++ (address a ++ (codes " " ++ (decimal c ++ (codes " " ++ decimal m)))) → Gives (a, c, m) result }
{
    let (place, rest) = field(text, " ")?;
    let (id, rest) = u32_field(rest, " ")?;
    let word = last(rest, " ")?;
    let duration = number64(word).ok_or(LineError::Bad)?;
    let address = address_word(alloc, place)?;
    Ok((address, id, duration))
}

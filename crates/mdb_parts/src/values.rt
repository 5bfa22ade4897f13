//! Values of a line: addresses and ids.

ghost use Rattle.std.specs.Prelude.{◌≡◌, ◌<◌, List, length, true};
ghost use Rattle.std.specs.List.{list_all};
ghost use Rattle.mdb_base.specs.AddressRule.{is_address};
ghost use Rattle.mdb_base.specs.Spelling.{address, object_id};
ghost use Rattle.mdb_base.specs.declared.address.ServerAddress.{ServerAddress};
ghost use Rattle.mdb_base.specs.declared.object_id.ObjectId.{ObjectId};
ghost use Rattle.mdb_parts.specs.Parts.{addresses};
ghost use Rattle.mdb_parts.specs.Types.{IsIdOfTypes};
ghost use Rattle.mdb_parts.specs.Reading.{Gives};

use crate::line_error::LineError;
use mdb_base::{AddressError, Items, ObjectId, ServerAddress};
use std::alloc::Global;

/// An address.
#[tactic(auto, using(crate::proofs::AddressLemmas::address_spelled))]
pub fn address_word(alloc: Global, word: &str) -> Result<ServerAddress, LineError>
    ensures { (a : ServerAddress) → is_address a ≡ true → word.now ≡ address a → Gives a result }
{
    match ServerAddress::parse(alloc, word) {
        Ok(address) => Ok(address),
        Err(AddressError::BadAddress) => Err(LineError::Bad),
        Err(AddressError::OutOfMemory) => Err(LineError::OutOfMemory),
    }
}

/// Addresses with commas between them.
pub fn addresses_word(alloc: Global, word: &str) -> Result<Items<ServerAddress>, LineError>
    ensures { (seeds : List ServerAddress) → 0 < length seeds → list_all is_address seeds ≡ true → word.now ≡ addresses seeds → Gives seeds result }
{
    let mut found = Vec::new(alloc);
    let mut rest = word;
    while let Some((first, more)) = rest.split_once(',') {
        let address = address_word(alloc, first)?;
        found.push(address)?;
        rest = more;
    }
    let address = address_word(alloc, rest)?;
    found.push(address)?;
    Ok(Items::new(found))
}

/// An object id of 24 digits, if the word is one.
pub fn id_word(word: &str) -> Option<ObjectId>
    ensures { (id : ObjectId) → IsIdOfTypes id → word.now ≡ object_id id → result ≡ Some id }
{
    ObjectId::from_hex(word)
}

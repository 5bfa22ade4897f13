//! Addresses as replies list them.

ghost use Rattle.std.specs.Prelude.{◌≡◌, IfOk};
ghost use Rattle.mdb_describe.specs.Listed.{parsed, are_addresses};

use mdb_base::{AddressError, OutOfMemory, ServerAddress, Text};
use std::alloc::Global;

/// The address that a text stands for, and `None` where it stands for none.
pub fn parsed(alloc: Global, text: &str) -> Result<Option<ServerAddress>, OutOfMemory>
    ensures { IfOk result (λ found. found ≡ parsed text.now) }
{
    match ServerAddress::parse(alloc, text) {
        Ok(address) => Ok(Some(address)),
        Err(AddressError::BadAddress) => Ok(None),
        Err(AddressError::OutOfMemory) => Err(OutOfMemory),
    }
}

/// Each text stands for an address.
pub fn are_addresses(alloc: Global, texts: &[Text]) -> Result<bool, OutOfMemory>
    ensures { IfOk result (λ all. all ≡ are_addresses texts.now) }
{
    for text in texts {
        if parsed(alloc, text.as_str())?.is_none() {
            return Ok(false);
        }
    }
    Ok(true)
}

//! The words of fixed places behind a line's first word.

use crate::words::number;
use mdb_base::{AddressError, OutOfMemory, ServerAddress};
use std::alloc::Global;

/// What stands at a fixed place of a line.
#[derive(Clone, Copy, Debug, PartialEq, Eq)]
pub(crate) enum Slot {
    Moment,
    Party,
    Watcher,
    Pool,
    Connection,
    Duration,
    Time,
    Address,
    Addresses,
    Use,
}

fn is_narrow(word: &str) -> bool {
    match number(word) {
        Some(number) => number < 4_294_967_296,
        None => false,
    }
}

/// Whether the word is an address as a script spells it.
pub(crate) fn is_address(alloc: Global, word: &str) -> Result<bool, OutOfMemory> {
    match ServerAddress::parse(alloc, word) {
        Ok(address) => {
            let spelled = format!(in alloc; "{address}")?;
            Ok(address.is_regular() && spelled.as_str() == word)
        }
        Err(AddressError::BadAddress) => Ok(false),
        Err(AddressError::OutOfMemory) => Err(OutOfMemory),
    }
}

/// Whether the word is 1 to 128 addresses with commas between them. That they differ is not asked.
pub(crate) fn are_addresses(alloc: Global, word: &str) -> Result<bool, OutOfMemory> {
    let mut count = 0usize;
    for part in word.split(',') {
        if !is_address(alloc, part)? {
            return Ok(false);
        }
        count = count.saturating_add(1);
    }
    Ok(count <= 128)
}

impl Slot {
    /// Whether the word may stand here.
    pub(crate) fn fits(self, alloc: Global, word: &str) -> Result<bool, OutOfMemory> {
        match self {
            Slot::Moment | Slot::Duration | Slot::Time => Ok(number(word).is_some()),
            Slot::Party | Slot::Watcher | Slot::Pool | Slot::Connection => Ok(is_narrow(word)),
            Slot::Address => is_address(alloc, word),
            Slot::Addresses => are_addresses(alloc, word),
            Slot::Use => Ok(
                word == "ok" || word == "errored" || word == "dropped" || word == "streaming",
            ),
        }
    }

    /// What is wanted here.
    pub(crate) fn wanted(self) -> &'static str {
        match self {
            Slot::Moment =>
                "a moment is wanted: milliseconds, 0 to 18446744073709551615, without leading zeros",
            Slot::Party => "a party is wanted: a number of the caller's choice, 0 to 4294967295",
            Slot::Watcher => "a watcher is wanted: a number of its choice, 0 to 4294967295",
            Slot::Pool => "the number of a pool is wanted, 0 to 4294967295",
            Slot::Connection => "the number of a connection is wanted, 0 to 4294967295",
            Slot::Duration => "nanoseconds are wanted, 0 to 18446744073709551615",
            Slot::Time => "a time of the cluster is wanted, 0 to 18446744073709551615",
            Slot::Address =>
                "an address is wanted: host:port in small letters, with a port of 1 to 65535",
            Slot::Addresses =>
                "1 to 128 different addresses are wanted, host:port in small letters with commas between them",
            Slot::Use => "how it was used is wanted: ok, errored, dropped or streaming",
        }
    }
}

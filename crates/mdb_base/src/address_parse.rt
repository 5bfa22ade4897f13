//! Reading an address.

ghost use Rattle.std.specs.Prelude.{◌≡◌, IfOk, IfErr, MatchResult};
ghost use Rattle.mdb_base.specs.AddressRule.{IsAddressText};
ghost use Rattle.mdb_base.specs.AddressText.{lowered};
ghost use Rattle.mdb_base.specs.declared.address.ServerAddress.{ServerAddress as Address};
ghost use Rattle.mdb_base.specs.declared.address_parse.AddressError.TheVariants.{OutOfMemory as NoMemory};

use crate::address::ServerAddress;
use crate::address_text::read;
use std::alloc::{AllocError, Global};
use thiserror::Error;

/// Why a text gives no address.
#[derive(Clone, Copy, Debug, PartialEq, Eq, Drop, Error)]
pub enum AddressError {
    /// The text is no host, no host with a port, and neither of these with an IPv6 address in brackets.
    #[error("bad address")]
    BadAddress,
    /// There was no memory.
    #[error("out of memory")]
    OutOfMemory,
}

impl From<AllocError> for AddressError {
    ghost from_gives = { λ _ e. e ≡ NoMemory };

    fn from(_e: AllocError) -> AddressError {
        AddressError::OutOfMemory
    }
}

fn lowered(alloc: Global, host: &str, port: u16) -> Result<ServerAddress, AddressError>
    ensures { MatchResult result (λ a. a ≡ lowered host.now port) (λ e. e ≡ NoMemory) }
{
    let host = host.to_ascii_lowercase(alloc)?;
    Ok(ServerAddress::new(host, port)?)
}

impl ServerAddress {
    /// Reads `host`, `host:port`, `[v6]` or `[v6]:port`, with ASCII letters of any case, which it lowers. The default
    /// port is 27017. `BadAddress` where the text has none of these forms, also where there is no memory.
    pub fn parse(alloc: Global, text: &str) -> Result<ServerAddress, AddressError>
        ensures found { IfOk result (λ a. IsAddressText text.now a) }
        ensures only { (a : Address) → IsAddressText text.now a → MatchResult result (λ x. x ≡ a) (λ e. e ≡ NoMemory) }
        ensures memory { IfErr result (λ e. e ≡ NoMemory → (a : Address) × IsAddressText text.now a) }
    {
        match read(text) {
            Some((host, port)) => lowered(alloc, host, port),
            None => Err(AddressError::BadAddress),
        }
    }
}

//! The address of a server.

ghost use Rattle.std.specs.Prelude.{◌≡◌, string_bytes, ◌==◌, IfOk};
ghost use Rattle.std.specs.List.{list_any};

use crate::host::Host;
use std::alloc::AllocError;
use std::fmt;

/// A host, without brackets, and a port. Copies share the host, so they take no memory.
#[derive(Debug, Drop, PartialEq, Eq, PartialOrd, Ord)]
pub struct ServerAddress {
    pub host: Host,
    pub port: u16,
}

impl ServerAddress {
    ghost use Rattle.mdb_base.specs.Equality.{same_address};

    /// Keeps the host as it is. Fails where there is no memory for the count of the copies that share it.
    pub fn new(host: String, port: u16) -> Result<ServerAddress, AllocError>
        ensures host { IfOk result (λ address. address.host ≡ string_bytes host) }
        ensures port { IfOk result (λ address. address.port ≡ port) }
    {
        let host = Host::new(host)?;
        Ok(ServerAddress { host, port })
    }

    /// The host, without brackets.
    pub fn host(&self) -> &str
        ensures { result.now ≡ self.now.host }
    {
        self.host.as_str()
    }

    /// The hosts and the ports are the same.
    pub fn is(&self, other: &ServerAddress) -> bool
        ensures { result ≡ same_address self.now other.now }
    {
        self.host.as_str() == other.host.as_str() && self.port == other.port
    }
}

impl Clone for ServerAddress {
    ghost is_clone = { λ s t. t ≡ s };

    fn clone(&self) -> Result<ServerAddress, AllocError> {
        let host = self.host.clone()?;
        Ok(ServerAddress {
            host,
            port: self.port,
        })
    }
}

/// Whether a host stands in brackets.
pub fn has_colon(host: &str) -> bool
    ensures { result ≡ list_any (λ b. b == 58) host.now }
{
    host.as_bytes().iter().any(|b| *b == b':')
}

impl fmt::Display for ServerAddress {
    ghost use Rattle.std.specs.Prelude.{Some};
    ghost use Rattle.mdb_base.specs.Spelling.{address};

    ghost output = { λ a. Some (address a) };

    fn fmt<W: fmt::Write>(&self, f: &mut fmt::Formatter<W>) -> fmt::Result {
        let host = self.host();
        let port = self.port;
        if has_colon(host) {
            write!(f, "[{host}]:{port}")
        } else {
            write!(f, "{host}:{port}")
        }
    }
}

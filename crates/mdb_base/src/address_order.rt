//! The order of addresses.

ghost use Rattle.std.specs.Prelude.{◌≡◌};
ghost use Rattle.mdb_base.specs.AddressOrder.{is_before};

use crate::address::ServerAddress;

impl ServerAddress {
    /// The host's bytes are below those of the other one, or the hosts are the same and the port is below the other.
    pub fn is_before(&self, other: &ServerAddress) -> bool
        ensures { result ≡ is_before self.now other.now }
    {
        self.host() < other.host() || (self.host() == other.host() && self.port < other.port)
    }
}

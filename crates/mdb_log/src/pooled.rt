//! Connections in the hands of parties.

ghost use Rattle.std.specs.Prelude.{◌≡◌, IfOk};

use mdb_base::{OutOfMemory, ServerAddress};
use mdb_events::ConnectionInfo;
use std::alloc::Global;

/// A connection that a party holds. It must be spent: by a check-in, or by taking it apart, which is the way after a refused check-in.
#[derive(Debug)]
pub struct PooledConnection {
    /// The number of the pool.
    pub pool: u32,
    /// The number of the connection in its pool.
    pub id: u32,
    /// The number of the party.
    pub party: u32,
}

impl PooledConnection {
    /// The number of the connection in its pool.
    pub fn id(&self) -> u32
        ensures { result ≡ self.now.id }
    {
        self.id
    }

    /// What names the connection to others, with a copy of the address. `OutOfMemory` where there is none for the copy.
    pub fn info(
        &self,
        _alloc: Global,
        server_id: Option<i64>,
        address: &ServerAddress,
    ) -> Result<ConnectionInfo, OutOfMemory>
        ensures { IfOk result (λ info. info ≡ record { id = self.now.id; server_id = server_id; address = address.now }) }
    {
        let address = address.clone()?;
        Ok(ConnectionInfo {
            id: self.id,
            server_id,
            address,
        })
    }
}

/// The name of a pin, written by whoever pinned. It owns nothing: its pin ends by an unpin.
#[derive(Clone, Copy, Debug, PartialEq, Eq)]
pub struct PinnedConnectionHandle {
    /// The number of the pool.
    pub pool: u32,
    /// The number of the connection in its pool.
    pub id: u32,
}

impl PinnedConnectionHandle {
    /// The number of the connection in its pool.
    pub fn id(&self) -> u32
        ensures { result ≡ self.now.id }
    {
        self.id
    }
}

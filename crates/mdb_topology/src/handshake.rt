//! How far the handshake of a connection has come.

ghost use Rattle.std.specs.Prelude.{◌≡◌};
ghost use Rattle.mdb_topology.specs.Handshake.{service_of, is_unfinished, wire_of};

use mdb_base::ObjectId;
use mdb_log::{ConnectionGeneration, PoolStamp};

/// When an error of a connection came, by its handshake (SDAM, "Network error when reading or writing"). It says which generation the error is of.
#[derive(Debug, Drop)]
pub enum HandshakePhase {
    /// The server has not answered the hello: the connection carries the generation of its pool.
    PreHello {
        /// That of the pool when the connection was created.
        generation: PoolStamp,
    },
    /// The server answered the hello, and the handshake isn't over.
    PostHello {
        /// The number of the pool.
        pool: u32,
        /// That of the pool when the connection was created; behind a load balancer that of its service.
        generation: ConnectionGeneration,
    },
    /// The handshake is over, and told the greatest wire version of the server.
    AfterCompletion {
        /// The number of the pool.
        pool: u32,
        /// That of the pool when the connection was created; behind a load balancer that of its service.
        generation: ConnectionGeneration,
        /// What the server told as `maxWireVersion`.
        max_wire_version: i32,
    },
}

impl HandshakePhase {
    /// The service behind a load balancer that the connection is to. Before the hello it isn't known (SDAM, "Error handling pseudocode").
    pub fn service_id(&self) -> Option<ObjectId>
        ensures { result ≡ service_of self.now }
    {
        match self {
            HandshakePhase::PreHello { .. } => None,
            HandshakePhase::PostHello { generation, .. } => generation.service_id(),
            HandshakePhase::AfterCompletion { generation, .. } => generation.service_id(),
        }
    }

    /// The handshake isn't over: any network error makes the server unknown then, a timeout too (SDAM, "Network error when reading or writing").
    pub fn is_before_completion(&self) -> bool
        ensures { result ≡ is_unfinished self.now }
    {
        !matches!(self, HandshakePhase::AfterCompletion { .. })
    }

    /// The greatest wire version of the server, once the handshake is over. Below 8 a changed state of the server clears the pool (SDAM, "not
    /// writable primary and node is recovering").
    pub fn wire_version(&self) -> Option<i32>
        ensures { result ≡ wire_of self.now }
    {
        match self {
            HandshakePhase::AfterCompletion {
                max_wire_version,
                ..
            } => Some(*max_wire_version),
            _ => None,
        }
    }
}

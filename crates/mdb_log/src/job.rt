//! Connections that are to be established.

use super::PoolStamp;
use mdb_base::ServerAddress;

/// A pending connection that a worker establishes outside the driver (CMAP, "Establishing a Connection").
#[derive(Debug, Drop)]
pub struct Job {
    /// The number of the pool.
    pub pool: u32,
    /// The number of the connection in its pool.
    pub id: u32,
    /// The address of the pool.
    pub address: ServerAddress,
    /// The generation of the pool before the connection was created.
    pub generation: PoolStamp,
}

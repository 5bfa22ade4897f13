//! The options of one pool.

use mdb_base::Moment;

/// How many connections callers make at most where `max_pool_size` isn't named (CMAP, "Connection Pool Options").
pub const DEFAULT_MAX_POOL_SIZE: u32 = 10;

/// How many connections are pending at a time where `max_connecting` isn't named (CMAP, "Connection Pool Options").
pub const DEFAULT_MAX_CONNECTING: u32 = 2;

/// The options of a pool. Sizes are at most 65,535, and the maximum and `max_connecting` at least 1.
#[derive(Clone, Copy, Debug, PartialEq, Eq)]
pub struct PoolOptions {
    /// The most connections that callers make, `DEFAULT_MAX_POOL_SIZE` where it isn't named.
    pub max_pool_size: Option<u32>,
    /// The fewest connections that the pool keeps, 0 where it isn't named.
    pub min_pool_size: Option<u32>,
    /// How long a connection may be available, in milliseconds. 0, as no limit, closes none.
    pub max_idle_time: Option<Moment>,
    /// The most connections that are pending at a time, `DEFAULT_MAX_CONNECTING` where it isn't named.
    pub max_connecting: Option<u32>,
    /// How long a caller may wait in the queue, in milliseconds. 0, as no limit, ends nobody.
    pub max_wait: Option<Moment>,
    /// The address is a load balancer's.
    pub load_balanced: bool,
    /// The greatest id of a connection.
    pub limit_id: u32,
    /// The greatest generation of the pool or of a service.
    pub limit_generation: u64,
}

//! The core of one pool of connections: what it answers to its steps. Steps, replies and logs are those of `mdb_log`.
#![tactic(auto)]

mod acts;
pub mod composing;
mod counting;
mod dues;
mod job;
mod kept;
pub mod planning;
mod pool_core;
mod reading;
mod steps;

pub use dues::Timer;
pub use kept::status::PoolState;
pub use mdb_log::{
    Act, BeatenResult, ConnectionGeneration, Core, DEFAULT_MAX_POOL_SIZE, Entry, Established,
    FailedAt, HelloResult, Job, LoadBalancedGeneration, Log, PinnedConnectionHandle,
    PoolGeneration, PoolOptions, PoolStamp, PooledConnection, Refused, Reply, Step, Use, What,
};
pub use pool_core::PoolCore;

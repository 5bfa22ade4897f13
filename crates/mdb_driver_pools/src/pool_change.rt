//! What a step does to one of the pools.

use mdb_pool::PoolCore;
use mdb_pool::planning::Plan;

/// A change of the pools that is planned, with all memory that it needs.
#[derive(Drop)]
pub enum PoolChange {
    /// The pool at the index changes as it was planned.
    Alter(usize, Plan),
    /// One more pool is opened.
    Open(PoolCore),
}

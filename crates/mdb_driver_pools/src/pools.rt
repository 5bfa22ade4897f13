//! The pools of one driver.

use crate::cores::Cores;
use mdb_base::Moment;
use mdb_intervals::Spans;

/// The pools of one driver, by number, the numbers of all parties that some pool knows, and the moment of its last accepted step. A pool that was closed keeps its number.
#[derive(Drop)]
pub struct Pools {
    /// The pools, each at its number.
    pub cores: Cores,
    /// The numbers of those who asked a pool, or took a pinned connection of it.
    pub known: Spans,
    /// The moment of the last accepted step, of whichever pool.
    pub last: Moment,
}

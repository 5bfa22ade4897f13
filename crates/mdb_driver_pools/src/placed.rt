//! A pool that memory keeps.

use mdb_pool::PoolCore;

/// A pool with its place among all that the driver opened.
#[derive(Drop)]
pub struct Placed {
    /// How many were opened before it.
    pub place: usize,
    pub core: PoolCore,
}

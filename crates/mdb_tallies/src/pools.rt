//! What was read of one pool.

/// Counts of a pool, and whether it hands out connections.
#[derive(Clone, Copy)]
pub struct Pool {
    pub is_opened: bool,
    pub is_ready: bool,
    pub created: u64,
    pub closed: u64,
    pub pending: u64,
    pub available: u64,
}

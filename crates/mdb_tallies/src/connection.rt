//! What was read of one connection.

/// A connection: the number of its pool and its own.
#[derive(Clone, Copy)]
pub struct Place {
    pub pool: u32,
    pub id: u32,
}

/// Counts and marks of a connection.
#[derive(Clone, Copy)]
pub struct Connection {
    pub creations: u64,
    pub closings: u64,
    /// A step established it, or failed to.
    pub is_tried: bool,
    /// It was granted at some time.
    pub is_granted: bool,
    pub is_available: bool,
    /// How many parties took it and did not return.
    pub kept: u64,
    /// How many parties were granted it, did not take it, did not return and whose request did not end.
    pub lent: u64,
}

//! What tenants asked for.

use mdb_base::ServerAddress;

/// One ask that wasn't refused when it was made.
#[derive(Debug, Drop)]
pub struct Asked {
    /// The number of the tenant.
    pub tenant: u32,
    /// The number of the request.
    pub request: u32,
    pub address: ServerAddress,
    /// The length of the log before the ask.
    pub entries: u64,
    /// The outcome of the request, or the core's refusal of it, was told.
    pub told: bool,
}

// An ask that is held back, or whose request the core has and neither ended nor took back.
#[derive(Drop)]
pub struct Standing {
    pub tenant: u32,
    pub request: u32,
    pub address: ServerAddress,
    pub held: bool,
}

// What the log says of an ask.
#[derive(Clone, Copy)]
pub struct Note {
    // The place in the log of the entry that handed it on.
    pub handed: Option<usize>,
    // Its caller returned the connection.
    pub returned: bool,
}

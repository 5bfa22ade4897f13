//! What an error comes to.

use mdb_driver_pools::PoolChange;
use mdb_events::Fact;

/// What an error about a server comes to that is marked Unknown.
#[derive(Drop)]
pub struct Marked {
    pub facts: Vec<Fact>,
    pub changes: Vec<PoolChange>,
    /// Something known changed.
    pub changed: bool,
}

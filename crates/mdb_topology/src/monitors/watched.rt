//! A monitor that memory keeps.

use mdb_monitor::MonitorCore;

/// The monitor of the pool at the place.
#[derive(Drop)]
pub struct Watched {
    /// How many pools were opened before that one.
    pub place: usize,
    pub monitor: MonitorCore,
}

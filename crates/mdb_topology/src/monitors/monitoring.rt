//! What an accepted step does at the monitors.

use mdb_monitor::{CheckCount, MonitorCore};

/// What an accepted step does at the monitors that there are, with all memory that it needs.
#[derive(Drop)]
pub enum Monitoring {
    /// Nothing.
    Same,
    /// The monitor at the index becomes this one; at last how many checks began so far that connected.
    Checked(usize, MonitorCore, u64),
    /// These watchers ask for a check.
    Asked(CheckCount),
}

//! The state of a driver.

use crate::monitors::monitor_list::Monitors;
use mdb_base::Options;
use mdb_describe::TopologyDescription;
use mdb_driver_pools::Pools;
use mdb_monitor::CheckCount;

/// All pools of one driver with what is known of its servers. Each pool has a monitor, at the pool's number. Memory keeps the pools in which something lives, and their monitors: one that is open, or
/// closed and has a connection, or a request that was not told how it ended.
#[derive(Drop)]
pub struct TopologyCore {
    // What the driver was opened with.
    pub(crate) options: Options,
    // What is known of its servers.
    pub(crate) description: TopologyDescription,
    // How often an accepted step told of the topology.
    pub(crate) published: u64,
    // It was stopped for good.
    pub(crate) stopped: bool,
    // Its pools by number, closed ones too.
    pub(crate) pools: Pools,
    // The monitor of each pool, at the pool's number.
    pub(crate) monitors: Monitors,
    // How many checks began so far that connected.
    pub(crate) fresh: u64,
    // Who asks for a check.
    pub(crate) watchers: CheckCount,
}

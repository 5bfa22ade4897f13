//! What the next check of a server does, and what follows from one that ends: asked beforehand, of a driver that stays as it is.

ghost use Rattle.std.specs.Prelude.{◌≡◌, ℕ, IfOk, List, Some, None, if◌then◌else◌, is_some, option_copied, slice_get};
ghost use Rattle.mdb_log.specs.Connections.{has};

use crate::monitors::ended_checks::check_result;
use crate::topology::TopologyCore;
use mdb_base::{OutOfMemory, ServerAddress};
use mdb_log::BeatenResult;
use mdb_monitor::{MonitorCore, Next};
use std::alloc::Global;

impl TopologyCore {
    ghost use Rattle.mdb_describe.specs.Topology.{server_at};
    ghost use Rattle.mdb_log.specs.History.{Item, open_pool};
    ghost use Rattle.mdb_monitor.specs.declared.monitor.MonitorCore.{MonitorCore as Monitor};
    ghost use Rattle.mdb_monitor.specs.Standing.{StandsFor as MonitorStands, setting_of};
    ghost use Rattle.mdb_driver_rules.specs.Ahead.{is_available, next_after};
    ghost use Rattle.mdb_driver_rules.specs.Monitors.{fresh, monitor_items, setting};
    ghost use Rattle.mdb_topology.specs.Standing.{StandsFor};

    // The monitor at the index, where memory keeps it.
    fn monitor_at(&self, index: usize) -> Option<&MonitorCore>
        ensures { option_copied result ≡ if has index self.now.monitors.kept then slice_get self.now.monitors.items index else None }
    {
        self.monitors.get(index)
    }

    /// The monitor of the pool that is open at the address: what its calls answer that only look at it is what the driver's history says of the checks and round trips of that pool. `None` where no
    /// pool is open there.
    pub fn monitor(&self, address: &ServerAddress) -> Option<&MonitorCore>
        ensures opened { (h : List Item) → StandsFor self.now h → is_some (option_copied result) ≡ is_some (open_pool h address.now) }
        ensures stands { (h : List Item) (p : ℕ) (m : Monitor) → StandsFor self.now h → open_pool h address.now ≡ Some p → option_copied result ≡ Some m → MonitorStands m (monitor_items h p) }
        ensures setting { (h : List Item) (m : Monitor) → StandsFor self.now h → option_copied result ≡ Some m → setting_of m ≡ setting self.now.options address.now }
    {
        match self.pools.at_address(address) {
            Some(index) => self.monitor_at(index),
            None => None,
        }
    }

    /// The number that the next check gets which makes a connection, of whatever server. A `Beat` of such a check is refused where the number is past 32 bits, or past the limit of the options.
    pub fn next_connection_id(&self) -> u64
        ensures { (h : List Item) → StandsFor self.now h → result ≡ fresh h }
    {
        self.fresh
    }

    // The type of the server is known.
    fn is_available(&self, address: &ServerAddress) -> bool
        ensures { result ≡ is_available (server_at address.now self.now.description.servers) }
    {
        match self.description.server(address) {
            Some(server) => server.is_available(),
            None => false,
        }
    }

    /// What follows a check of the server that ended so, asked before the end is stepped: that the server was available is what the driver knows now. `None` where no pool is open at the address.
    pub fn next_after(
        &self,
        alloc: Global,
        address: &ServerAddress,
        came: &BeatenResult,
    ) -> Result<Option<Next>, OutOfMemory>
        ensures { IfOk result (λ next. (h : List Item) → StandsFor self.now h → next ≡ next_after self.now.options h address.now came.now) }
    {
        let Some(monitor) = self.monitor(address) else {
            return Ok(None);
        };
        let ended = check_result(alloc, address, came)?;
        let next = monitor.next_after(&ended, self.is_available(address));
        drop(ended);
        Ok(Some(next))
    }
}

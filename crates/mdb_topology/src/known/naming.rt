//! Whether hosts that are named would take the servers or the pools past their limits: told without memory, and before anything of the step is made.

ghost use Rattle.std.specs.Prelude.{◌≡◌, ◌≤◌, ◌+◌, true, length, nat_lt};
ghost use Rattle.mdb_describe.specs.Servers.{is_known, is_listed};
ghost use Rattle.mdb_describe.specs.Topology.{synced};
ghost use Rattle.mdb_srv.specs.Polling.{is_polled};
ghost use Rattle.mdb_driver_rules.specs.Naming.{is_past, new_hosts};

use crate::known::changing::MAX_SERVERS;
use crate::topology::TopologyCore;
use mdb_base::ServerAddress;
use mdb_describe::ServerDescription;
use mdb_log::What;

// One of the servers has the address.
fn is_known(servers: &[ServerDescription], address: &ServerAddress) -> bool
    ensures { result ≡ is_known address.now servers.now }
{
    servers.iter().any(|server| server.address.is(address))
}

// The address is one of these.
fn is_listed(listed: &[ServerAddress], address: &ServerAddress) -> bool
    ensures { result ≡ is_listed listed.now address.now }
{
    listed.iter().any(|other| other.is(address))
}

// How many of the hosts none of the servers has, each host once.
fn count_new(servers: &[ServerDescription], hosts: &[ServerAddress]) -> usize
    ensures count { result ≡ new_hosts servers.now hosts.now }
    ensures few { result ≤ length hosts.now }
{
    let mut count = 0;
    let mut rest = hosts;
    while let [host, more @ ..] = rest {
        if !is_known(servers, host) && !is_listed(more, host) {
            count += 1;
        }
        rest = more;
    }
    count
}

/// The limit is below the sum.
pub(crate) fn is_below_sum(limit: usize, opened: usize, more: usize) -> bool
    ensures { result ≡ nat_lt limit (opened + more) }
{
    if limit < opened {
        return true;
    }
    limit - opened < more
}

impl TopologyCore {
    ghost use Rattle.mdb_topology.specs.Changing.{change_past};
    ghost use Rattle.mdb_topology.specs.Standing.{StandsForSome};

    // The last of the pools that would come has a number past the limit.
    fn names_past(&self, hosts: &[ServerAddress]) -> bool
        ensures { result ≡ is_past self.now.options (length self.now.pools.cores.items) (new_hosts self.now.description.servers hosts.now) }
    {
        let count = count_new(self.description.servers(), hosts);
        if count == 0 {
            return false;
        }
        let limit = self.options.limit_pool.unwrap_or(u32::MAX) as usize;
        is_below_sum(limit, self.pools.cores.len(), count - 1)
    }

    /// What the driver would run out of, where the hosts become the servers.
    pub(crate) fn exhausted_by(&self, hosts: &[ServerAddress]) -> Option<What>
        requires stands { StandsForSome self.now }
        requires polled { is_polled self.now.description.topology_type ≡ true }
        ensures { result ≡ change_past self.now (synced hosts.now self.now.description) }
    {
        if MAX_SERVERS < count_new(&[], hosts) {
            return Some(What::Servers);
        }
        if self.names_past(hosts) {
            return Some(What::Pool);
        }
        None
    }
}

//! The session timeout of a topology.

ghost use Rattle.std.specs.Prelude.{◌≡◌};
ghost use Rattle.mdb_describe.specs.Topology.{session_timeout};
ghost use Rattle.mdb_describe.specs.SoFar.{next_least, with_one, least_so_far, or_none};

use crate::description::ServerDescription;
use crate::topology::TopologyDescription;

impl TopologyDescription {
    /// The least session timeout in minutes of the servers that hold data ("Driver Sessions"). `None` where one of
    /// them has none, and where there is no such server.
    #[tactic(auto, using(crate::proofs::Timeouts::whole))]
    pub fn logical_session_timeout(&self) -> Option<u64>
        ensures { result ≡ session_timeout self.now.servers }
    {
        or_none(least_so_far(self.servers()))
    }
}

fn or_none(least: Option<Option<u64>>) -> Option<u64>
    ensures { result ≡ or_none least }
{
    match least {
        Some(least) => least,
        None => None,
    }
}

// The least timeout of the servers that hold data; `None` where there is no such server.
fn least_so_far(servers: &[ServerDescription]) -> Option<Option<u64>>
    ensures { result ≡ least_so_far servers.now }
{
    let mut least = None;
    for server in servers {
        least = with_one(least, server);
    }
    least
}

// The least timeout with one more server, which counts where it holds data.
fn with_one(least: Option<Option<u64>>, server: &ServerDescription) -> Option<Option<u64>>
    ensures { result ≡ with_one least server.now }
{
    if server.is_data_bearing() {
        Some(next_least(least, server.session_timeout()))
    } else {
        least
    }
}

// The least timeout with one more server; `None` where there was no server yet.
fn next_least(least: Option<Option<u64>>, timeout: Option<u64>) -> Option<u64>
    ensures { result ≡ next_least least timeout }
{
    match (least, timeout) {
        (None, timeout) => timeout,
        (Some(Some(least)), Some(timeout)) => Some(least.min(timeout)),
        (Some(_), _) => None,
    }
}

//! The kinds of topology, and which of them are polled.
ghost use Rattle.std.specs.Prelude.{◌≡◌};
ghost use Rattle.mdb_srv.specs.Polling.{is_polled};

use std::fmt;

/// What kind of deployment a driver sees (SDAM, "TopologyType").
#[derive(Clone, Copy, PartialEq, Eq, Debug, Drop)]
pub enum TopologyType {
    /// Nothing is known yet.
    Unknown,
    /// One server, whatever it is.
    Single,
    /// Routers of a sharded cluster.
    Sharded,
    /// A replica set whose primary is not known.
    ReplicaSetNoPrimary,
    /// A replica set with a known primary.
    ReplicaSetWithPrimary,
    /// One load balancer.
    LoadBalanced,
}

impl fmt::Display for TopologyType {
    ghost use Rattle.std.specs.Prelude.{Some};
    ghost use Rattle.mdb_srv.specs.Polling.{topology_name};

    ghost output = { λ kind. Some (topology_name kind) };

    fn fmt<W: fmt::Write>(&self, f: &mut fmt::Formatter<W>) -> fmt::Result {
        match self {
            TopologyType::Unknown => write!(f, "Unknown"),
            TopologyType::Single => write!(f, "Single"),
            TopologyType::Sharded => write!(f, "Sharded"),
            TopologyType::ReplicaSetNoPrimary => write!(f, "ReplicaSetNoPrimary"),
            TopologyType::ReplicaSetWithPrimary => write!(f, "ReplicaSetWithPrimary"),
            TopologyType::LoadBalanced => write!(f, "LoadBalanced"),
        }
    }
}

/// Whether the SRV records of a topology are looked up again from time to time
/// ("Polling SRV Records for mongos Discovery").
pub fn should_poll(kind: TopologyType) -> bool
    ensures { result ≡ is_polled kind }
{
    matches!(kind, TopologyType::Sharded | TopologyType::Unknown)
}

//! A topology as numbers.

ghost use Rattle.std.specs.Prelude.{◌≡◌};
ghost use Rattle.mdb_c.specs.Topologies.{ticks, topology_numbers};

use crate::types::{flag_number, topology_type_number};
use mdb_base::ClusterTime;
use mdb_describe::TopologyDescription;
use mdb_srv::should_poll;

/// What is known of a topology. A number that is not known is 0.
#[repr(C)]
#[derive(Clone, Copy)]
pub struct TopologyNumbers {
    /// How many servers it has.
    pub servers: u64,
    /// The latest time of the cluster.
    pub cluster_time: u64,
    /// The least session timeout of the servers that hold data, in minutes.
    pub session_minutes: u64,
    /// Its type, from 1.
    pub kind: u32,
    /// The greatest set version of a primary.
    pub max_set_version: i32,
    /// Whether that version is known.
    pub has_max_set_version: u32,
    /// Whether a time of the cluster is known.
    pub has_cluster_time: u32,
    /// Whether there is a session timeout.
    pub has_session_minutes: u32,
    /// Whether the driver can speak to each of the servers.
    pub compatible: u32,
    /// Whether its SRV records are looked up again.
    pub polled: u32,
}

// The number of a time, and 0 where there is none.
fn ticks(time: Option<ClusterTime>) -> u64
    ensures { result ≡ ticks time }
{
    match time {
        Some(ClusterTime(time)) => time,
        None => 0,
    }
}

/// The numbers of a topology.
pub fn numbers_of_topology(topology: &TopologyDescription) -> TopologyNumbers
    ensures { result ≡ topology_numbers topology.now }
{
    let set_version = topology.max_set_version();
    let cluster_time = topology.cluster_time();
    let minutes = topology.logical_session_timeout();
    TopologyNumbers {
        servers: topology.servers().len() as u64,
        cluster_time: ticks(cluster_time),
        session_minutes: minutes.unwrap_or(0),
        kind: topology_type_number(topology.topology_type()),
        max_set_version: set_version.unwrap_or(0),
        has_max_set_version: flag_number(set_version.is_some()),
        has_cluster_time: flag_number(cluster_time.is_some()),
        has_session_minutes: flag_number(minutes.is_some()),
        compatible: flag_number(topology.compatibility_error().is_none()),
        polled: flag_number(should_poll(topology.topology_type())),
    }
}

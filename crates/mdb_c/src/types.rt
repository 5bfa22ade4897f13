//! The types of servers and of topologies as numbers, from 1.

ghost use Rattle.std.specs.Prelude.{◌≡◌};
ghost use Rattle.mdb_c.specs.Types.{flag_number, server_type_number, topology_type_number};

use mdb_describe::TopologyType;
use mdb_hello::ServerType;

pub fn flag_number(flag: bool) -> u32
    ensures { result ≡ flag_number flag }
{
    if flag { 1 } else { 0 }
}

pub fn server_type_number(kind: ServerType) -> u32
    ensures { result ≡ server_type_number kind }
{
    match kind {
        ServerType::Unknown => 1,
        ServerType::Standalone => 2,
        ServerType::Mongos => 3,
        ServerType::RsPrimary => 4,
        ServerType::RsSecondary => 5,
        ServerType::RsArbiter => 6,
        ServerType::RsOther => 7,
        ServerType::RsGhost => 8,
        ServerType::LoadBalancer => 9,
    }
}

pub fn topology_type_number(kind: TopologyType) -> u32
    ensures { result ≡ topology_type_number kind }
{
    match kind {
        TopologyType::Unknown => 1,
        TopologyType::Single => 2,
        TopologyType::ReplicaSetNoPrimary => 3,
        TopologyType::ReplicaSetWithPrimary => 4,
        TopologyType::Sharded => 5,
        TopologyType::LoadBalanced => 6,
    }
}

//! When the pool of a server may be used.

ghost use Rattle.std.specs.Prelude.{◌≡◌};
ghost use Rattle.mdb_driver_rules.specs.Ready.{is_ready_type};

use mdb_describe::ServerDescription;
use mdb_srv::TopologyType;

/// A server that changed and stays readies its pool: it holds data, or it is of any known type and the topology is a single server.
pub fn is_ready_type(topology: TopologyType, server: &ServerDescription) -> bool
    ensures { result ≡ is_ready_type topology server.now.server_type }
{
    server.is_data_bearing() || (matches!(topology, TopologyType::Single) && server.is_available())
}

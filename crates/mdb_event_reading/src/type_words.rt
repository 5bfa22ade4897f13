//! Types of servers and of topologies as words.

ghost use Rattle.std.specs.Prelude.{◌≡◌};
ghost use Rattle.mdb_describe.specs.InfoText.{type_name};
ghost use Rattle.mdb_hello.specs.declared.server_type.ServerType.{ServerType};
ghost use Rattle.mdb_srv.specs.Polling.{topology_name};
ghost use Rattle.mdb_srv.specs.declared.topology_type.TopologyType.{TopologyType};
ghost use Rattle.mdb_parts.specs.Reading.{Gives};

use mdb_hello::ServerType;
use mdb_parts::LineError;
use mdb_srv::TopologyType;

/// A type of a server.
pub fn server_type(word: &str) -> Result<ServerType, LineError>
    ensures { (kind : ServerType) → word.now ≡ type_name kind → Gives kind result }
{
    if word == "Standalone" {
        Ok(ServerType::Standalone)
    } else if word == "Mongos" {
        Ok(ServerType::Mongos)
    } else if word == "RsPrimary" {
        Ok(ServerType::RsPrimary)
    } else if word == "RsSecondary" {
        Ok(ServerType::RsSecondary)
    } else if word == "RsArbiter" {
        Ok(ServerType::RsArbiter)
    } else if word == "RsOther" {
        Ok(ServerType::RsOther)
    } else if word == "RsGhost" {
        Ok(ServerType::RsGhost)
    } else if word == "LoadBalancer" {
        Ok(ServerType::LoadBalancer)
    } else if word == "Unknown" {
        Ok(ServerType::Unknown)
    } else {
        Err(LineError::Bad)
    }
}

/// A type of a topology.
pub fn topology_type(word: &str) -> Result<TopologyType, LineError>
    ensures { (kind : TopologyType) → word.now ≡ topology_name kind → Gives kind result }
{
    if word == "Unknown" {
        Ok(TopologyType::Unknown)
    } else if word == "Single" {
        Ok(TopologyType::Single)
    } else if word == "Sharded" {
        Ok(TopologyType::Sharded)
    } else if word == "ReplicaSetNoPrimary" {
        Ok(TopologyType::ReplicaSetNoPrimary)
    } else if word == "ReplicaSetWithPrimary" {
        Ok(TopologyType::ReplicaSetWithPrimary)
    } else if word == "LoadBalanced" {
        Ok(TopologyType::LoadBalanced)
    } else {
        Err(LineError::Bad)
    }
}

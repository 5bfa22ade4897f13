//! What a new description of a server changes, by the type of the topology and that of the server (SDAM, "Table of
//! topology types and actions").

ghost use Rattle.std.specs.Prelude.{◌≡◌, true, false};
ghost use Rattle.mdb_hello.specs.declared.server_type.ServerType.TheVariants as Server;
ghost use Rattle.mdb_srv.specs.declared.topology_type.TopologyType.TheVariants as Kind;
ghost use Rattle.mdb_describe.specs.declared.description.ServerDescription.{ServerDescription};
ghost use Rattle.mdb_describe.specs.Update.{names_other, table, stored, with_compatibility, decided, member_rule_a, member_rule_b, of_type, check, removed};
ghost use Rattle.mdb_describe.specs.Changes.{changed};

use crate::change::{Change, Fate};
use crate::description::ServerDescription;
use crate::primary::primary_rule;
use crate::topology::TopologyDescription;
use mdb_hello::ServerType;
use mdb_srv::TopologyType;

impl TopologyDescription {
    /// What the description changes.
    pub(crate) fn decide(&self, server: &ServerDescription) -> Change
        ensures { changed result self.now server.now ≡ decided self.now server.now }
    {
        match self.topology_type {
            TopologyType::Unknown => in_unknown(self, server),
            TopologyType::Sharded => in_sharded(self, server),
            TopologyType::ReplicaSetNoPrimary => without_primary(self, server),
            TopologyType::ReplicaSetWithPrimary => with_primary(self, server),
            TopologyType::Single | TopologyType::LoadBalanced => stays(self),
        }
    }

    /// The set has a name, and the server names another one or none.
    pub(crate) fn names_other(&self, server: &ServerDescription) -> bool
        ensures { result ≡ names_other self.now server.now }
    {
        match (&self.set_name, server.set_name()) {
            (Some(name), Some(other)) => name != other,
            (Some(_), None) => true,
            (None, _) => false,
        }
    }
}

/// The description is stored, and nothing else changes.
pub fn stays(topology: &TopologyDescription) -> Change
    ensures { result ≡ record { fate = Fate.Stays; learns = false; demotes = false; adds = false; only_listed = false; checks = false; topology_type = topology.now.topology_type; max_set_version = topology.now.max_set_version; max_election_id = topology.now.max_election_id } }
{
    Change {
        fate: Fate::Stays,
        learns: false,
        demotes: false,
        adds: false,
        only_listed: false,
        checks: false,
        topology_type: topology.topology_type,
        max_set_version: topology.max_set_version,
        max_election_id: topology.max_election_id,
    }
}

fn of_type(topology: &TopologyDescription, topology_type: TopologyType) -> Change
    ensures { (s : ServerDescription) → changed result topology.now s ≡ with_compatibility (of_type topology_type (stored topology.now s)) }
{
    Change {
        topology_type,
        ..stays(topology)
    }
}

fn removed(topology: &TopologyDescription) -> Change
    ensures { (s : ServerDescription) → changed result topology.now s ≡ with_compatibility (removed (stored topology.now s) s) }
{
    Change {
        fate: Fate::Gone,
        ..stays(topology)
    }
}

fn removed_and_checked(topology: &TopologyDescription) -> Change
    ensures { (s : ServerDescription) → changed result topology.now s ≡ with_compatibility (check (removed (stored topology.now s) s)) }
{
    Change {
        fate: Fate::Gone,
        checks: true,
        ..stays(topology)
    }
}

fn checked(topology: &TopologyDescription) -> Change
    ensures { (s : ServerDescription) → changed result topology.now s ≡ with_compatibility (check (stored topology.now s)) }
{
    Change {
        checks: true,
        ..stays(topology)
    }
}

fn in_unknown(topology: &TopologyDescription, server: &ServerDescription) -> Change
    ensures { changed result topology.now server.now ≡ with_compatibility (table Kind.Unknown server.now.server_type (stored topology.now server.now) server.now) }
{
    match server.server_type {
        ServerType::Standalone => {
            if topology.one_seed {
                of_type(topology, TopologyType::Single)
            } else {
                removed(topology)
            }
        }
        ServerType::Mongos => of_type(topology, TopologyType::Sharded),
        ServerType::RsPrimary => primary_rule(topology, server),
        ServerType::RsSecondary | ServerType::RsArbiter | ServerType::RsOther => {
            member_rule_a(topology, TopologyType::ReplicaSetNoPrimary, server)
        }
        ServerType::Unknown | ServerType::RsGhost | ServerType::LoadBalancer => stays(topology),
    }
}

fn in_sharded(topology: &TopologyDescription, server: &ServerDescription) -> Change
    ensures { changed result topology.now server.now ≡ with_compatibility (table Kind.Sharded server.now.server_type (stored topology.now server.now) server.now) }
{
    match server.server_type {
        ServerType::Mongos | ServerType::Unknown | ServerType::LoadBalancer => stays(topology),
        ServerType::Standalone
        | ServerType::RsPrimary
        | ServerType::RsSecondary
        | ServerType::RsArbiter
        | ServerType::RsOther
        | ServerType::RsGhost => removed(topology),
    }
}

fn without_primary(topology: &TopologyDescription, server: &ServerDescription) -> Change
    ensures { changed result topology.now server.now ≡ with_compatibility (table Kind.ReplicaSetNoPrimary server.now.server_type (stored topology.now server.now) server.now) }
{
    match server.server_type {
        ServerType::Standalone | ServerType::Mongos => removed(topology),
        ServerType::RsPrimary => primary_rule(topology, server),
        ServerType::RsSecondary | ServerType::RsArbiter | ServerType::RsOther => {
            member_rule_a(topology, topology.topology_type, server)
        }
        ServerType::Unknown | ServerType::RsGhost | ServerType::LoadBalancer => stays(topology),
    }
}

fn with_primary(topology: &TopologyDescription, server: &ServerDescription) -> Change
    ensures { changed result topology.now server.now ≡ with_compatibility (table Kind.ReplicaSetWithPrimary server.now.server_type (stored topology.now server.now) server.now) }
{
    match server.server_type {
        ServerType::Standalone | ServerType::Mongos => removed_and_checked(topology),
        ServerType::RsPrimary => primary_rule(topology, server),
        ServerType::RsSecondary | ServerType::RsArbiter | ServerType::RsOther => {
            member_rule_b(topology, server)
        }
        ServerType::Unknown | ServerType::RsGhost => checked(topology),
        ServerType::LoadBalancer => stays(topology),
    }
}

fn member_rule_a(
    topology: &TopologyDescription,
    topology_type: TopologyType,
    server: &ServerDescription,
) -> Change
    ensures { changed result topology.now server.now ≡ with_compatibility (member_rule_a (of_type topology_type (stored topology.now server.now)) server.now) }
{
    let other = topology.names_other(server);
    let fate = if other || server.invalid_me() {
        Fate::Gone
    } else {
        Fate::Stays
    };
    Change {
        fate,
        learns: !other,
        adds: !other,
        topology_type,
        ..stays(topology)
    }
}

fn member_rule_b(topology: &TopologyDescription, server: &ServerDescription) -> Change
    ensures { changed result topology.now server.now ≡ with_compatibility (member_rule_b (stored topology.now server.now) server.now) }
{
    if topology.names_other(server) || server.invalid_me() {
        removed_and_checked(topology)
    } else {
        checked(topology)
    }
}

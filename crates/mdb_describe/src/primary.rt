//! The rule for a server that says it is a primary (SDAM, "updateRSFromPrimary").

ghost use Rattle.std.specs.Prelude.{◌≡◌, true, int_lt};
ghost use Rattle.mdb_describe.specs.Update.{primary_rule, stored, with_compatibility, is_modern, id_is_below, is_below, is_outdated, is_outdated_older, max_id, max_version};
ghost use Rattle.mdb_describe.specs.Changes.{changed};

use crate::change::{Change, Fate};
use crate::decide::stays;
use crate::description::ServerDescription;
use crate::topology::TopologyDescription;
use mdb_base::ObjectId;

// From this wire version on the election id counts before the set version.
const ELECTION_ID_FIRST: i32 = 17;

/// What a primary's description changes.
pub fn primary_rule(topology: &TopologyDescription, server: &ServerDescription) -> Change
    ensures { changed result topology.now server.now ≡ with_compatibility (primary_rule (stored topology.now server.now) server.now) }
{
    if topology.names_other(server) {
        Change {
            fate: Fate::Gone,
            checks: true,
            ..stays(topology)
        }
    } else if is_outdated(topology, server) {
        Change {
            fate: Fate::Forgotten,
            learns: true,
            checks: true,
            ..stays(topology)
        }
    } else {
        leads(topology, server)
    }
}

// The server is the primary, and what it lists is the set.
fn leads(topology: &TopologyDescription, server: &ServerDescription) -> Change
    ensures { result ≡ record { fate = Fate.Stays; learns = true; demotes = true; adds = true; only_listed = true; checks = true; topology_type = topology.now.topology_type; max_set_version = max_version topology.now server.now; max_election_id = max_id topology.now server.now } }
{
    Change {
        learns: true,
        demotes: true,
        adds: true,
        only_listed: true,
        checks: true,
        max_set_version: max_version(topology, server),
        max_election_id: max_id(topology, server),
        ..stays(topology)
    }
}

fn is_modern(server: &ServerDescription) -> bool
    ensures { result ≡ is_modern server.now }
{
    server.max_wire_version().unwrap_or(0) >= ELECTION_ID_FIRST
}

fn max_id(topology: &TopologyDescription, server: &ServerDescription) -> Option<ObjectId>
    ensures { result ≡ max_id topology.now server.now }
{
    match (server.election_id(), server.set_version()) {
        _ if is_modern(server) => server.election_id(),
        (Some(id), Some(_)) => Some(id),
        _ => topology.max_election_id,
    }
}

fn max_version(topology: &TopologyDescription, server: &ServerDescription) -> Option<i32>
    ensures { result ≡ max_version topology.now server.now }
{
    let version = server.set_version();
    if is_modern(server) || version_is_below(topology.max_set_version, version) {
        version
    } else {
        topology.max_set_version
    }
}

fn is_outdated(topology: &TopologyDescription, server: &ServerDescription) -> bool
    ensures { result ≡ is_outdated topology.now server.now }
{
    let id = server.election_id();
    let version = server.set_version();
    if is_modern(server) {
        let max_id = topology.max_election_id;
        id_is_below(id, max_id)
            || (id == max_id && version_is_below(version, topology.max_set_version))
    } else {
        is_outdated_older(
            id,
            version,
            topology.max_election_id,
            topology.max_set_version,
        )
    }
}

fn is_outdated_older(
    id: Option<ObjectId>,
    version: Option<i32>,
    max_id: Option<ObjectId>,
    max_version: Option<i32>,
) -> bool
    ensures { result ≡ is_outdated_older id version max_id max_version }
{
    match (id, version, max_id, max_version) {
        (Some(id), Some(version), Some(max_id), Some(max_version)) => {
            version < max_version || (version == max_version && id_below(id, max_id))
        }
        _ => false,
    }
}

fn id_is_below(id: Option<ObjectId>, other: Option<ObjectId>) -> bool
    ensures { result ≡ is_below id_is_below id other }
{
    match (id, other) {
        (Some(id), Some(other)) => id_below(id, other),
        (None, Some(_)) => true,
        (_, None) => false,
    }
}

// In the order of the ids' bytes.
fn id_below(id: ObjectId, other: ObjectId) -> bool
    ensures { result ≡ id_is_below id other }
{
    id.0.as_slice().cmp(other.0.as_slice()).is_lt()
}

fn version_is_below(version: Option<i32>, other: Option<i32>) -> bool
    ensures { result ≡ is_below int_lt version other }
{
    match (version, other) {
        (Some(version), Some(other)) => version < other,
        (None, Some(_)) => true,
        (_, None) => false,
    }
}

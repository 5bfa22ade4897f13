//! Which event of a server or of the topology it is, and which kind of server.

ghost use Rattle.std.specs.Prelude.{◌≡◌};
ghost use Rattle.mdb_recording_lines.specs.ServerNames.{check_named, kind_named, other_kind_named, topology_named};

use mdb_recording_servers::{ServerEvent, ServerKind, ServerTold};

#[tactic(auto, unfolding(crate::specs::ServerNames::other_kind_named))]
fn other_kind_named(word: &str) -> Option<ServerKind>
    ensures { result ≡ other_kind_named word.now }
{
    if word == "RSArbiter" {
        Some(ServerKind::Arbiter)
    } else if word == "RSOther" {
        Some(ServerKind::Other)
    } else if word == "RSGhost" {
        Some(ServerKind::Ghost)
    } else if word == "PossiblePrimary" {
        Some(ServerKind::PossiblePrimary)
    } else if word == "LoadBalancer" {
        Some(ServerKind::LoadBalancer)
    } else {
        None
    }
}

/// The kind of server with this name.
#[tactic(auto, unfolding(crate::specs::ServerNames::kind_named))]
pub fn kind_named(word: &str) -> Option<ServerKind>
    ensures { result ≡ kind_named word.now }
{
    if word == "Unknown" {
        Some(ServerKind::Unknown)
    } else if word == "RSPrimary" {
        Some(ServerKind::Primary)
    } else if word == "RSSecondary" {
        Some(ServerKind::Secondary)
    } else if word == "Standalone" {
        Some(ServerKind::Standalone)
    } else if word == "Mongos" {
        Some(ServerKind::Mongos)
    } else {
        other_kind_named(word)
    }
}

/// The event of the topology with this name.
#[tactic(auto, unfolding(crate::specs::ServerNames::topology_named))]
pub fn topology_named(word: &str) -> Option<ServerEvent>
    ensures { result ≡ topology_named word.now }
{
    if word == "TopologyDescriptionChanged" {
        Some(ServerEvent::TopologyChanged)
    } else if word == "TopologyOpening" {
        Some(ServerEvent::TopologyOpened)
    } else if word == "TopologyClosed" {
        Some(ServerEvent::TopologyClosed)
    } else {
        None
    }
}

/// What an event of this name tells of a check.
#[tactic(auto, unfolding(crate::specs::ServerNames::check_named))]
pub fn check_named(word: &str) -> Option<ServerTold>
    ensures { result ≡ check_named word.now }
{
    if word == "ServerHeartbeatStarted" {
        Some(ServerTold::CheckStarted)
    } else if word == "ServerHeartbeatSucceeded" || word == "ServerHeartbeatFailed" {
        Some(ServerTold::CheckEnded)
    } else {
        None
    }
}

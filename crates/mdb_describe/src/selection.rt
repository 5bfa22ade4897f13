//! Which servers an operation may use (SDAM and "Server Selection").

ghost use Rattle.std.specs.Prelude.{◌≡◌, ◌&&◌, filter, option_copied};
ghost use Rattle.std.specs.List.{list_any};
ghost use Rattle.mdb_describe.specs.Fields.{is_known_type};
ghost use Rattle.mdb_describe.specs.Selection.{is_primary, is_secondary, is_data_member, no_sets, is_router, same_tag, is_among, has_tag, contains_tags, matching, members, selected, mode_of, tag_sets_of, is_some_server, has_writable, matches_some};

use crate::description::ServerDescription;
use crate::servers::has_primary;
use crate::topology::TopologyDescription;
use mdb_base::{Items, TagSet, Text};
use mdb_hello::ServerType;
use mdb_srv::TopologyType;

/// Which members of a replica set an operation reads from ("Server Selection", "Read Preference Modes").
#[derive(Clone, Copy, Debug, PartialEq, Eq)]
pub enum Mode {
    Primary,
    PrimaryPreferred,
    Secondary,
    SecondaryPreferred,
    Nearest,
}

/// A mode, and tag sets in the order in which they are tried. No tag set at all matches each server.
#[derive(Debug, Drop)]
pub struct ReadPreference {
    pub mode: Mode,
    pub tag_sets: Items<TagSet>,
}

/// What a server has to be.
#[derive(Debug, Drop)]
pub enum SelectionCriteria {
    ReadPreference(ReadPreference),
}

impl TopologyDescription {
    /// Some server that takes writes may be there. No memory is taken.
    pub fn has_writable_server(&self) -> bool
        ensures { result ≡ has_writable self.now.topology_type self.now.servers }
    {
        match self.topology_type {
            TopologyType::Unknown | TopologyType::ReplicaSetNoPrimary => false,
            TopologyType::Single | TopologyType::Sharded => some_available(self.servers()),
            TopologyType::ReplicaSetWithPrimary | TopologyType::LoadBalanced => true,
        }
    }

    /// Some server meets the criteria; without criteria it has to be a primary ("Server Selection"). Round trips are
    /// not looked at. No memory is taken.
    #[tactic(auto, using(crate::proofs::Selecting::some_filtered))]
    pub fn has_readable_server(&self, criteria: Option<&SelectionCriteria>) -> bool
        ensures { result ≡ is_some_server (selected self.now.topology_type (mode_of (option_copied criteria.entry)) (tag_sets_of (option_copied criteria.entry)) self.now.servers) }
    {
        match self.topology_type {
            TopologyType::Unknown => false,
            TopologyType::Single | TopologyType::LoadBalanced => some_available(self.servers()),
            TopologyType::Sharded => some_router(self.servers()),
            TopologyType::ReplicaSetNoPrimary | TopologyType::ReplicaSetWithPrimary => {
                some_member_for(self.servers(), criteria)
            }
        }
    }
}

fn some_available(servers: &[ServerDescription]) -> bool
    ensures { result ≡ list_any (λ s. is_known_type s.server_type) servers.now }
{
    servers.iter().any(|server| server.is_available())
}

fn some_router(servers: &[ServerDescription]) -> bool
    ensures { result ≡ list_any (λ s. is_router s.server_type) servers.now }
{
    servers
        .iter()
        .any(|server| matches!(server.server_type, ServerType::Mongos))
}

#[tactic(auto, using(crate::proofs::Selecting::some_filtered))]
fn some_member_for(servers: &[ServerDescription], criteria: Option<&SelectionCriteria>) -> bool
    ensures { result ≡ is_some_server (members (mode_of (option_copied criteria.entry)) (tag_sets_of (option_copied criteria.entry)) servers.now) }
{
    match criteria {
        Some(SelectionCriteria::ReadPreference(preference)) => {
            some_member(servers, preference.mode, preference.tag_sets.as_slice())
        }
        None => has_primary(servers),
    }
}

#[tactic(auto, using(crate::proofs::Selecting::some_filtered, crate::proofs::Selecting::some_or))]
fn some_member(servers: &[ServerDescription], mode: Mode, tag_sets: &[TagSet]) -> bool
    ensures { result ≡ is_some_server (members mode tag_sets.now servers.now) }
{
    match mode {
        Mode::Primary => has_primary(servers),
        Mode::Secondary => some_secondary(servers, tag_sets),
        Mode::PrimaryPreferred | Mode::SecondaryPreferred => {
            has_primary(servers) || some_secondary(servers, tag_sets)
        }
        Mode::Nearest => some_data_member(servers, tag_sets),
    }
}

fn some_secondary(servers: &[ServerDescription], tag_sets: &[TagSet]) -> bool
    ensures { result ≡ is_some_server (matching tag_sets.now (filter is_secondary servers.now)) }
{
    any_secondary(servers, tag_sets)
}

fn any_secondary(servers: &[ServerDescription], tag_sets: &[TagSet]) -> bool
    ensures { result ≡ list_any (λ s. is_secondary s && matches_some tag_sets.now s) servers.now }
{
    servers
        .iter()
        .any(|server| secondary_fits(server, tag_sets))
}

fn secondary_fits(server: &ServerDescription, tag_sets: &[TagSet]) -> bool
    ensures { result ≡ is_secondary server.now && matches_some tag_sets.now server.now }
{
    is_secondary(server) && matches_some(server, tag_sets)
}

fn some_data_member(servers: &[ServerDescription], tag_sets: &[TagSet]) -> bool
    ensures { result ≡ is_some_server (matching tag_sets.now (filter is_data_member servers.now)) }
{
    any_data_member(servers, tag_sets)
}

fn any_data_member(servers: &[ServerDescription], tag_sets: &[TagSet]) -> bool
    ensures { result ≡ list_any (λ s. is_data_member s && matches_some tag_sets.now s) servers.now }
{
    servers
        .iter()
        .any(|server| data_member_fits(server, tag_sets))
}

fn data_member_fits(server: &ServerDescription, tag_sets: &[TagSet]) -> bool
    ensures { result ≡ is_data_member server.now && matches_some tag_sets.now server.now }
{
    is_data_member(server) && matches_some(server, tag_sets)
}

fn is_data_member(server: &ServerDescription) -> bool
    ensures { result ≡ is_data_member server.now }
{
    is_primary(server) || is_secondary(server)
}

fn is_primary(server: &ServerDescription) -> bool
    ensures { result ≡ is_primary server.now }
{
    matches!(server.server_type, ServerType::RsPrimary)
}

fn is_secondary(server: &ServerDescription) -> bool
    ensures { result ≡ is_secondary server.now }
{
    matches!(server.server_type, ServerType::RsSecondary)
}

// There is no tag set, or the server has one of them.
fn matches_some(server: &ServerDescription, tag_sets: &[TagSet]) -> bool
    ensures { result ≡ matches_some tag_sets.now server.now }
{
    no_sets(tag_sets) || has_some_set(server, tag_sets)
}

fn no_sets(tag_sets: &[TagSet]) -> bool
    ensures { result ≡ no_sets tag_sets.now }
{
    tag_sets.is_empty()
}

fn has_some_set(server: &ServerDescription, tag_sets: &[TagSet]) -> bool
    ensures { result ≡ list_any (λ wanted. contains_tags wanted server.now) tag_sets.now }
{
    tag_sets
        .iter()
        .any(|set| contains_tags(server, set.as_slice()))
}

// The server has each of these tags.
fn contains_tags(server: &ServerDescription, wanted: &[(Text, Text)]) -> bool
    ensures { result ≡ contains_tags wanted.now server.now }
{
    wanted.iter().all(|tag| has_tag(server.tags(), tag))
}

fn has_tag(tags: Option<&TagSet>, wanted: &(Text, Text)) -> bool
    ensures { result ≡ has_tag wanted.now (option_copied tags.entry) }
{
    match tags {
        Some(tags) => is_among(wanted, tags.as_slice()),
        None => false,
    }
}

fn is_among(wanted: &(Text, Text), tags: &[(Text, Text)]) -> bool
    ensures { result ≡ is_among wanted.now tags.now }
{
    tags.iter().any(|own| same_tag(own, wanted))
}

fn same_tag(own: &(Text, Text), wanted: &(Text, Text)) -> bool
    ensures { result ≡ same_tag own.now wanted.now }
{
    own.0 == wanted.0 && own.1 == wanted.1
}

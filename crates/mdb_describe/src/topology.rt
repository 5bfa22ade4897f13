//! What a driver knows of a whole topology.

ghost use Rattle.std.specs.Prelude.{◌≡◌, ℕ, true, Some, option_copied};
ghost use Rattle.std.specs.List.{slice_get};
ghost use Rattle.mdb_describe.specs.declared.description.ServerDescription.{ServerDescription};
ghost use Rattle.mdb_describe.specs.Servers.{in_order};
ghost use Rattle.mdb_describe.specs.Topology.{later_time, server_at};

use crate::description::ServerDescription;
use crate::servers::server_at;
use mdb_base::{ClusterTime, Items, ObjectId, ServerAddress, Text};
use mdb_srv::TopologyType;
use std::marker::Model;

/// What is known of a whole topology (SDAM, "TopologyDescription"). Its servers stand in the order of their
/// addresses.
#[derive(Debug, Drop)]
pub struct TopologyDescription {
    pub(crate) topology_type: TopologyType,
    pub(crate) set_name: Option<Text>,
    pub(crate) max_set_version: Option<i32>,
    pub(crate) max_election_id: Option<ObjectId>,
    // Exactly one seed was opened.
    pub(crate) one_seed: bool,
    pub(crate) compatibility_error: Option<Text>,
    pub(crate) servers: Items<ServerDescription>,
    pub(crate) cluster_time: Option<ClusterTime>,
}

impl Model for TopologyDescription {
    ghost use Rattle.std.specs.Prelude.{◌≡◌, true};
    ghost use Rattle.mdb_describe.specs.TopologyView.{Topology};
    ghost use Rattle.std.specs.Coded.{codes};
    ghost use Rattle.mdb_describe.specs.contracts.description.ServerDescription as server;

    ghost Value = { Topology };

    ghost coded = { Prim.hlevel (codes, server.the_row.coded) };

    ghost use Rattle.mdb_describe.specs.Servers.{in_order};

    ghost view = { λ t. record { topology_type = t.topology_type; set_name = t.set_name; max_set_version = t.max_set_version; max_election_id = t.max_election_id; one_seed = t.one_seed; compatibility_error = t.compatibility_error; servers = t.servers; cluster_time = t.cluster_time } };

    ghost invariant = { λ t. in_order t.servers ≡ true };
}

impl TopologyDescription {
    pub fn topology_type(&self) -> TopologyType
        ensures { result ≡ self.now.topology_type }
    {
        self.topology_type
    }

    /// The name of the replica set, where it is known.
    pub fn set_name(&self) -> Option<&str>
        ensures { option_copied result ≡ self.now.set_name }
    {
        match &self.set_name {
            Some(name) => Some(name.as_str()),
            None => None,
        }
    }

    /// The greatest set version of a primary (SDAM, "maxSetVersion").
    pub fn max_set_version(&self) -> Option<i32>
        ensures { result ≡ self.now.max_set_version }
    {
        self.max_set_version
    }

    /// The greatest election id of a primary (SDAM, "maxElectionId").
    pub fn max_election_id(&self) -> Option<ObjectId>
        ensures { result ≡ self.now.max_election_id }
    {
        self.max_election_id
    }

    /// Why the driver cannot speak to one of the servers: the first one to which it cannot.
    pub fn compatibility_error(&self) -> Option<&str>
        ensures { option_copied result ≡ self.now.compatibility_error }
    {
        match &self.compatibility_error {
            Some(text) => Some(text.as_str()),
            None => None,
        }
    }

    /// The servers in the order of their addresses.
    pub fn servers(&self) -> &[ServerDescription]
        ensures servers { result.now ≡ self.now.servers }
        ensures ordered { in_order self.now.servers ≡ true }
        ensures found { (i : ℕ) (s : ServerDescription) → slice_get self.now.servers i ≡ Some s → server_at s.address self.now.servers ≡ Some s }
    {
        self.servers.as_slice()
    }

    /// The server with this address.
    pub fn server(&self, address: &ServerAddress) -> Option<&ServerDescription>
        ensures { option_copied result ≡ server_at address.now self.now.servers }
    {
        server_at(self.servers.as_slice(), address)
    }

    /// The latest cluster time that was seen.
    pub fn cluster_time(&self) -> Option<ClusterTime>
        ensures { result ≡ self.now.cluster_time }
    {
        self.cluster_time
    }

    /// The cluster time becomes this one, where it is later than the known one.
    pub fn advance_cluster_time(&mut self, to: ClusterTime)
        ensures { self.new ≡ record self.old { cluster_time = later_time self.old.cluster_time to } }
    {
        let later = match self.cluster_time {
            Some(known) => known.0 < to.0,
            None => true,
        };
        if later {
            self.cluster_time = Some(to);
        }
    }
}

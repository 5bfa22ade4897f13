//! What a description says of its server, field by field. None of these calls takes memory.

ghost use Rattle.std.specs.Prelude.{◌≡◌, option_copied};
ghost use Rattle.mdb_describe.specs.Fields.{response, error, topology_version, is_known_type, is_data_bearing, set_name, set_version, election_id, primary, me, hosts, passives, arbiters, tags, min_wire_version, max_wire_version, session_timeout};

use crate::description::ServerDescription;
use mdb_base::{Error, Items, ObjectId, TagSet, Text, TopologyVersion};
use mdb_hello::{HelloCommandResponse, ServerType};

impl ServerDescription {
    /// What the server said of itself, where it gave a reply.
    pub fn response(&self) -> Option<&HelloCommandResponse>
        ensures { option_copied result ≡ response self.now }
    {
        match &self.reply {
            Ok(Some(reply)) => Some(&reply.command_response),
            Ok(None) => None,
            Err(_) => None,
        }
    }

    /// The error, where the last check or an operation failed.
    pub fn error(&self) -> Option<&Error>
        ensures { option_copied result ≡ error self.now }
    {
        match &self.reply {
            Ok(_) => None,
            Err(error) => Some(error),
        }
    }

    /// The version of the reply or of the error (SDAM, "topologyVersion").
    pub fn topology_version(&self) -> Option<TopologyVersion>
        ensures { result ≡ topology_version self.now }
    {
        match &self.reply {
            Ok(Some(reply)) => reply.command_response.topology_version,
            Ok(None) => None,
            Err(error) => error.topology_version,
        }
    }

    /// The type of the server is known.
    pub fn is_available(&self) -> bool
        ensures { result ≡ is_known_type self.now.server_type }
    {
        !matches!(self.server_type, ServerType::Unknown)
    }

    /// The server holds data, by its type: a standalone server, a router, a primary, a secondary or a load balancer
    /// (SDAM, "data-bearing").
    pub fn is_data_bearing(&self) -> bool
        ensures { result ≡ is_data_bearing self.now.server_type }
    {
        matches!(
            self.server_type,
            ServerType::Standalone
                | ServerType::Mongos
                | ServerType::RsPrimary
                | ServerType::RsSecondary
                | ServerType::LoadBalancer
        )
    }

    pub(crate) fn set_name(&self) -> Option<&Text>
        ensures { option_copied result ≡ set_name self.now }
    {
        match self.response() {
            Some(response) => response.set_name.as_ref(),
            None => None,
        }
    }

    pub(crate) fn set_version(&self) -> Option<i32>
        ensures { result ≡ set_version self.now }
    {
        match self.response() {
            Some(response) => response.set_version,
            None => None,
        }
    }

    pub(crate) fn election_id(&self) -> Option<ObjectId>
        ensures { result ≡ election_id self.now }
    {
        match self.response() {
            Some(response) => response.election_id,
            None => None,
        }
    }

    pub(crate) fn primary(&self) -> Option<&Text>
        ensures { option_copied result ≡ primary self.now }
    {
        match self.response() {
            Some(response) => response.primary.as_ref(),
            None => None,
        }
    }

    pub(crate) fn me(&self) -> Option<&Text>
        ensures { option_copied result ≡ me self.now }
    {
        match self.response() {
            Some(response) => response.me.as_ref(),
            None => None,
        }
    }

    pub(crate) fn hosts(&self) -> Option<&Items<Text>>
        ensures { option_copied result ≡ hosts self.now }
    {
        match self.response() {
            Some(response) => response.hosts.as_ref(),
            None => None,
        }
    }

    pub(crate) fn passives(&self) -> Option<&Items<Text>>
        ensures { option_copied result ≡ passives self.now }
    {
        match self.response() {
            Some(response) => response.passives.as_ref(),
            None => None,
        }
    }

    pub(crate) fn arbiters(&self) -> Option<&Items<Text>>
        ensures { option_copied result ≡ arbiters self.now }
    {
        match self.response() {
            Some(response) => response.arbiters.as_ref(),
            None => None,
        }
    }

    pub(crate) fn tags(&self) -> Option<&TagSet>
        ensures { option_copied result ≡ tags self.now }
    {
        match self.response() {
            Some(response) => response.tags.as_ref(),
            None => None,
        }
    }

    pub(crate) fn min_wire_version(&self) -> Option<i32>
        ensures { result ≡ min_wire_version self.now }
    {
        match self.response() {
            Some(response) => response.min_wire_version,
            None => None,
        }
    }

    pub(crate) fn max_wire_version(&self) -> Option<i32>
        ensures { result ≡ max_wire_version self.now }
    {
        match self.response() {
            Some(response) => response.max_wire_version,
            None => None,
        }
    }

    pub(crate) fn session_timeout(&self) -> Option<u64>
        ensures { result ≡ session_timeout self.now }
    {
        match self.response() {
            Some(response) => response.logical_session_timeout_minutes,
            None => None,
        }
    }
}

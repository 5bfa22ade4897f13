//! What kind of server sent a reply.

ghost use Rattle.std.specs.Prelude.{◌≡◌};
ghost use Rattle.mdb_hello.specs.ServerTypes.{type_of, member_type_of, is_router_reply};

use crate::response::HelloCommandResponse;

/// What kind of server it is (SDAM, "ServerType").
#[derive(Clone, Copy, Debug, PartialEq, Eq)]
pub enum ServerType {
    /// A server alone.
    Standalone,
    /// A router.
    Mongos,
    /// The member of a set that takes writes.
    RsPrimary,
    /// A member that follows the primary.
    RsSecondary,
    /// A member that votes and holds no data.
    RsArbiter,
    /// A member that is none of these, or is hidden.
    RsOther,
    /// A server that is made for a set and is in none yet.
    RsGhost,
    /// A load balancer. No reply says so.
    LoadBalancer,
    /// A server of which nothing is known. No reply says so.
    Unknown,
}

impl HelloCommandResponse {
    /// The kind of server that sends such a reply (SDAM, "Parsing a hello response"). No memory is taken.
    pub fn server_type(&self) -> ServerType
        ensures { result ≡ type_of self.now }
    {
        if is_router(self) {
            ServerType::Mongos
        } else if self.set_name.is_some() {
            self.member_type()
        } else if self.is_replica_set == Some(true) {
            ServerType::RsGhost
        } else {
            ServerType::Standalone
        }
    }

    // The kind of a member of a replica set.
    fn member_type(&self) -> ServerType
        ensures { result ≡ member_type_of self.now }
    {
        if self.hidden == Some(true) {
            ServerType::RsOther
        } else if self.is_writable_primary == Some(true) || self.is_master == Some(true) {
            ServerType::RsPrimary
        } else if self.secondary == Some(true) {
            ServerType::RsSecondary
        } else if self.arbiter_only == Some(true) {
            ServerType::RsArbiter
        } else {
            ServerType::RsOther
        }
    }
}

// A reply with this message comes from a router.
fn is_router(response: &HelloCommandResponse) -> bool
    ensures { result ≡ is_router_reply response.now }
{
    match &response.msg {
        Some(msg) => msg.as_str() == "isdbgrid",
        None => false,
    }
}

//! A server's reply to a hello.

use mdb_base::{
    ClusterTime, DateTime, Document, Items, ObjectId, ServerAddress, TagSet, Text, TopologyVersion,
};

/// When a server last wrote.
#[derive(Clone, Copy, Debug, PartialEq, Eq)]
pub struct LastWrite {
    /// The time of the last write.
    pub last_write_date: DateTime,
}

/// What a server says of itself (SDAM, "hello"). A field that the reply lacks is `None`; the two sizes stand in
/// every reply. The session timeout is in minutes.
#[derive(Debug, Drop)]
pub struct HelloCommandResponse {
    /// Whether the server takes writes: a primary, a router or a server alone.
    pub is_writable_primary: Option<bool>,
    /// Whether the server can be written to, as servers say it that answer the older command.
    pub is_master: Option<bool>,
    /// Whether the server knows the command `hello`.
    pub hello_ok: Option<bool>,
    /// The members of the set that hold data and can be elected.
    pub hosts: Option<Items<Text>>,
    /// The members that hold data and cannot be elected.
    pub passives: Option<Items<Text>>,
    /// The members that vote and hold no data.
    pub arbiters: Option<Items<Text>>,
    /// A router says `isdbgrid`.
    pub msg: Option<Text>,
    /// The address by which the set knows the server.
    pub me: Option<Text>,
    /// The compressors that the server shares with the driver.
    pub compressors: Option<Items<Text>>,
    /// The version of the set's configuration.
    pub set_version: Option<i32>,
    /// The name of the set that the server is a member of.
    pub set_name: Option<Text>,
    /// Whether clients are to leave the server alone.
    pub hidden: Option<bool>,
    /// Whether the server is a secondary.
    pub secondary: Option<bool>,
    /// Whether the server is an arbiter.
    pub arbiter_only: Option<bool>,
    /// Whether the server is made for a set and is in none yet.
    pub is_replica_set: Option<bool>,
    /// For how many minutes a session that is not used is kept.
    pub logical_session_timeout_minutes: Option<u64>,
    /// When the server last wrote.
    pub last_write: Option<LastWrite>,
    /// The lowest wire version that the server speaks.
    pub min_wire_version: Option<i32>,
    /// The highest wire version that the server speaks.
    pub max_wire_version: Option<i32>,
    /// What an operator noted of the server, for the choice among servers.
    pub tags: Option<TagSet>,
    /// The election that made the server primary.
    pub election_id: Option<ObjectId>,
    /// The address of the primary, as the server knows it.
    pub primary: Option<Text>,
    /// The mechanisms by which a user can authenticate.
    pub sasl_supported_mechs: Option<Items<Text>>,
    /// The answer to an authentication that was begun with the hello.
    pub speculative_authenticate: Option<Document>,
    /// The greatest size of a document, in bytes.
    pub max_bson_object_size: i64,
    /// How many writes one command may hold.
    pub max_write_batch_size: Option<i64>,
    /// The service behind a load balancer.
    pub service_id: Option<ObjectId>,
    /// The version of the server's own description.
    pub topology_version: Option<TopologyVersion>,
    /// The greatest size of a message, in bytes.
    pub max_message_size_bytes: i32,
    /// The server's own number for the connection.
    pub connection_id: Option<i64>,
}

/// A reply, the server that sent it, and the document that it was read from.
#[derive(Debug, Drop)]
pub struct HelloReply {
    /// The server.
    pub server_address: ServerAddress,
    /// What the server says of itself.
    pub command_response: HelloCommandResponse,
    /// The document of the reply.
    pub raw_command_response: Document,
    /// The time of the cluster, where the reply tells one.
    pub cluster_time: Option<ClusterTime>,
}

impl Default for HelloCommandResponse {
    ghost use Rattle.std.specs.Prelude.{◌≡◌};
    ghost use Rattle.mdb_hello.specs.Reply.{no_reply};

    ghost is_default = { λ r. r ≡ no_reply };

    /// The reply that lacks each optional field, with sizes of 0. No memory is taken.
    fn default() -> HelloCommandResponse {
        HelloCommandResponse {
            is_writable_primary: None,
            is_master: None,
            hello_ok: None,
            hosts: None,
            passives: None,
            arbiters: None,
            msg: None,
            me: None,
            compressors: None,
            set_version: None,
            set_name: None,
            hidden: None,
            secondary: None,
            arbiter_only: None,
            is_replica_set: None,
            logical_session_timeout_minutes: None,
            last_write: None,
            min_wire_version: None,
            max_wire_version: None,
            tags: None,
            election_id: None,
            primary: None,
            sasl_supported_mechs: None,
            speculative_authenticate: None,
            max_bson_object_size: 0,
            max_write_batch_size: None,
            service_id: None,
            topology_version: None,
            max_message_size_bytes: 0,
            connection_id: None,
        }
    }
}

//! What the records of a host say about a deployment.

use mdb_base::{Items, ServerAddress, Text};

/// What the records of a host say about a deployment ("Initial DNS Seedlist Discovery").
#[derive(Debug, Drop)]
pub struct ResolvedConfig {
    /// The seeds, in the order of their SRV records.
    pub hosts: Items<ServerAddress>,
    /// For how many seconds the SRV records may be kept.
    pub min_ttl: u32,
    /// The database with the credentials, where the TXT record names it.
    pub auth_source: Option<Text>,
    /// The name of the replica set, where the TXT record names it.
    pub replica_set: Option<Text>,
    /// Whether a load balancer stands before the servers, where the TXT record says so.
    pub load_balanced: Option<bool>,
}

/// From which host the seeds of a topology came.
#[derive(Debug, Drop, PartialEq, Eq)]
pub struct OriginalSrvInfo {
    /// The host that was asked for.
    pub hostname: Text,
    /// For how many seconds its SRV records may be kept.
    pub min_ttl: u32,
}

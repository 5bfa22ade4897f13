//! What a new description of a server changes in a topology.

use mdb_base::ObjectId;
use mdb_srv::TopologyType;

/// What becomes of the server whose description came.
#[derive(Clone, Copy, Debug, PartialEq, Eq)]
pub enum Fate {
    /// It stays with its description.
    Stays,
    /// It stays, and nothing more is known of it.
    Forgotten,
    /// It goes.
    Gone,
}

/// A change of a topology: what becomes of the server, of the other ones and of what is known of the set.
#[derive(Clone, Copy, Debug)]
pub struct Change {
    pub fate: Fate,
    /// An unset set name is learnt.
    pub learns: bool,
    /// Nothing more is known of the other primaries.
    pub demotes: bool,
    /// The hosts that the server lists join.
    pub adds: bool,
    /// Only the hosts that the server lists stay.
    pub only_listed: bool,
    /// The type goes by whether there is a primary, and not by the next field.
    pub checks: bool,
    pub topology_type: TopologyType,
    pub max_set_version: Option<i32>,
    pub max_election_id: Option<ObjectId>,
}

//! The version that a server gives to its own description.

ghost use Rattle.std.specs.Prelude.{◌≡◌};

use crate::object_id::ObjectId;

/// A process of a server, and a counter that rises with each change there. An error or a reply with a version that
/// is not more recent than the known one says nothing new (SDAM, "topologyVersion").
#[derive(Clone, Copy, Debug, PartialEq, Eq)]
pub struct TopologyVersion {
    pub process_id: ObjectId,
    pub counter: i64,
}

impl TopologyVersion {
    ghost use Rattle.mdb_base.specs.Errors.{is_more_recent};

    /// Another process, or a greater counter of the same one.
    pub fn is_more_recent_than(&self, other: &TopologyVersion) -> bool
        ensures { result ≡ is_more_recent self.now other.now }
    {
        self.process_id != other.process_id || self.counter > other.counter
    }
}

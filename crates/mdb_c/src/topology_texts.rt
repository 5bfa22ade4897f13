//! The texts of a topology.

ghost use Rattle.std.specs.Prelude.{◌≡◌, IfOk, option_map, string_bytes};
ghost use Rattle.mdb_c.specs.Topologies.{topology_text};

use crate::given::{text_of, text_of_id};
use crate::which::{ELECTION_ID, ERROR, SET_NAME};
use mdb_base::OutOfMemory;
use mdb_describe::TopologyDescription;
use std::alloc::Global;

/// The text of this number, if the topology has it.
pub fn text_of_topology(
    alloc: Global,
    topology: &TopologyDescription,
    which: u32,
) -> Result<Option<String>, OutOfMemory>
    ensures { IfOk result (λ text. option_map string_bytes text ≡ topology_text which topology.now) }
{
    if which == SET_NAME {
        text_of(alloc, topology.set_name())
    } else if which == ELECTION_ID {
        text_of_id(alloc, topology.max_election_id())
    } else if which == ERROR {
        text_of(alloc, topology.compatibility_error())
    } else {
        Ok(None)
    }
}

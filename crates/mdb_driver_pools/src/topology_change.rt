//! A change of what is known of the topology.

use mdb_base::{Moment, Options};
use mdb_describe::TopologyDescription;

/// What is known changes at the moment.
#[derive(Clone, Copy)]
pub struct TopologyChange<'a> {
    pub options: &'a Options,
    pub moment: Moment,
    pub earlier: &'a TopologyDescription,
    pub later: &'a TopologyDescription,
}

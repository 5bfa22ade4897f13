//! What is known when an event comes.

use crate::server::Server;
use crate::topology::Topology;

/// What was told of the topology, and of the server that the event names.
#[derive(Clone, Copy, Debug)]
pub struct Known {
    pub server: Server,
    pub topology: Topology,
}

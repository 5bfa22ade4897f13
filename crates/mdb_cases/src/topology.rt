//! What is told of a topology.

use crate::page::Page;
use mdb_describe::{ServerDescription, TopologyDescription};

/// A blank, the address of the server and its type.
pub fn tell_server(page: &mut Page, server: &ServerDescription) {
    page.put(" ");
    page.show(&server.address);
    page.put("=");
    page.debug(&server.server_type);
}

/// The type, the set name, and each server with its type.
pub fn tell_topology(page: &mut Page, topology: &TopologyDescription) {
    page.show(&topology.topology_type());
    page.put(" ");
    page.put(topology.set_name().unwrap_or("-"));
    for server in topology.servers() {
        tell_server(page, server);
    }
}

//! What differs between two descriptions of a topology.

ghost use Rattle.std.specs.Prelude.{◌≡◌, ◌++◌, ◌∷◌, [], true, IfOk, IfSome, OnOk, if◌then◌else◌};
ghost use Rattle.mdb_describe.specs.Differences.{changed, missing, difference, differs_from, AreInOrder, are_in_both};

use crate::description::ServerDescription;
use crate::servers::{is_known, server_at};
use crate::topology::TopologyDescription;
use mdb_base::{Items, OutOfMemory, ServerAddress};
use std::alloc::Global;

/// The addresses of the servers whose descriptions are not the same, of those that went and of those that joined,
/// each in the order of addresses.
#[derive(Debug, Drop)]
pub struct Diff {
    pub changed: Items<ServerAddress>,
    pub removed: Items<ServerAddress>,
    pub added: Items<ServerAddress>,
}

impl TopologyDescription {
    /// What differs in the later description, and `None` where each server is the same.
    pub fn diff(
        &self,
        alloc: Global,
        later: &TopologyDescription,
    ) -> Result<Option<Diff>, OutOfMemory>
        ensures difference { IfOk result (λ found. found ≡ difference self.now.servers later.now.servers) }
        ensures ordered { IfOk result (λ found. IfSome found (λ d. AreInOrder d)) }
        ensures in_both { IfOk result (λ found. IfSome found (λ d. are_in_both self.now.servers later.now.servers d.changed ≡ true)) }
    {
        let before = self.servers();
        let after = later.servers();
        let changed = changed(alloc, before, after)?;
        let removed = missing(alloc, before, after)?;
        let added = missing(alloc, after, before)?;
        if changed.is_empty() && removed.is_empty() && added.is_empty() {
            return Ok(None);
        }
        Ok(Some(Diff {
            changed: Items::new(changed),
            removed: Items::new(removed),
            added: Items::new(added),
        }))
    }
}

fn changed(
    alloc: Global,
    earlier: &[ServerDescription],
    later: &[ServerDescription],
) -> Result<Vec<ServerAddress>, OutOfMemory>
    ensures { IfOk result (λ found. found.items ≡ changed earlier.now later.now) }
{
    let mut found = Vec::new(alloc);
    for server in later {
        add_if(&mut found, differs_from(earlier, server), server)?;
    }
    Ok(found)
}

// Those of the servers that are not among the others.
fn missing(
    alloc: Global,
    servers: &[ServerDescription],
    others: &[ServerDescription],
) -> Result<Vec<ServerAddress>, OutOfMemory>
    ensures { IfOk result (λ found. found.items ≡ missing servers.now others.now) }
{
    let mut found = Vec::new(alloc);
    for server in servers {
        add_if(&mut found, !is_known(others, &server.address), server)?;
    }
    Ok(found)
}

fn add_if(
    found: &mut Vec<ServerAddress>,
    adds: bool,
    server: &ServerDescription,
) -> Result<(), OutOfMemory>
    ensures { OnOk result (found.new.items ≡ (if adds then found.old.items ++ (server.now.address ∷ []) else found.old.items)) }
{
    if adds {
        found.push(server.address.clone()?)?;
    }
    Ok(())
}

// The server was there, with a description that is not the same.
fn differs_from(earlier: &[ServerDescription], server: &ServerDescription) -> bool
    ensures { result ≡ differs_from earlier.now server.now }
{
    match server_at(earlier, &server.address) {
        Some(old) => !old.same(server),
        None => false,
    }
}

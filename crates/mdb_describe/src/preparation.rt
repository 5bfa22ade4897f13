//! What a change needs of memory, which is taken before anything is changed.

ghost use Rattle.std.specs.Prelude.{◌≡◌, ◌+◌, ◌≤◌, ◌++◌, ◌||◌, [], true, map, IfOk, OnOk, OnErr};
ghost use Rattle.std.specs.Vec.{vec_len, vec_capacity};
ghost use Rattle.mdb_describe.specs.Descriptions.{unknown, texts_of};
ghost use Rattle.mdb_describe.specs.Fields.{set_name};
ghost use Rattle.mdb_describe.specs.Listed.{addresses, with_address};
ghost use Rattle.mdb_describe.specs.Update.{listed};
ghost use Rattle.mdb_describe.specs.Changes.{changed_servers};
ghost use Rattle.mdb_describe.specs.Kept.{is_kept, standing, takes_place, reason_if};
ghost use Rattle.mdb_describe.specs.Servers.{first_incompatible, in_order};

use crate::change::{Change, Fate};
use crate::description::ServerDescription;
use crate::listed::parsed;
use crate::servers::{is_listed, is_primary_type};
use crate::topology::TopologyDescription;
use mdb_base::{Items, OutOfMemory, ServerAddress, Text};
use std::alloc::Global;
use std::mem;

/// What a change needs, made before anything is changed.
#[derive(Drop)]
pub struct Prepared {
    /// The address of the server that is described.
    pub address: ServerAddress,
    /// The servers that it lists, and descriptions of them of which nothing is known.
    pub listed: Vec<ServerAddress>,
    pub unknowns: Vec<ServerDescription>,
    /// The set name after the change.
    pub set_name: Option<Text>,
    /// Why the driver cannot speak to one of the servers after the change.
    pub error: Option<Text>,
    /// The servers before the change, with room for those that are listed.
    pub servers: Vec<ServerDescription>,
}

// The hosts, passives and arbiters that a server lists.
#[tactic(auto, using(crate::proofs::Parts::addresses_of_three))]
pub fn listed(alloc: Global, server: &ServerDescription) -> Result<Vec<ServerAddress>, OutOfMemory>
    ensures { IfOk result (λ found. found.items ≡ listed server.now) }
{
    let mut found = Vec::new(alloc);
    if let Some(response) = server.response() {
        add_addresses(alloc, &mut found, &response.hosts)?;
        add_addresses(alloc, &mut found, &response.passives)?;
        add_addresses(alloc, &mut found, &response.arbiters)?;
    }
    Ok(found)
}

fn add_addresses(
    alloc: Global,
    found: &mut Vec<ServerAddress>,
    texts: &Option<Items<Text>>,
) -> Result<(), OutOfMemory>
    ensures { OnOk result (found.new.items ≡ found.old.items ++ addresses (texts_of texts.now)) }
{
    match texts {
        Some(texts) => add_each(alloc, found, texts.as_slice()),
        None => Ok(()),
    }
}

fn add_each(
    alloc: Global,
    found: &mut Vec<ServerAddress>,
    texts: &[Text],
) -> Result<(), OutOfMemory>
    ensures { OnOk result (found.new.items ≡ found.old.items ++ addresses texts.now) }
{
    for text in texts {
        add(found, parsed(alloc, text.as_str())?)?;
    }
    Ok(())
}

fn add(found: &mut Vec<ServerAddress>, address: Option<ServerAddress>) -> Result<(), OutOfMemory>
    ensures { OnOk result (found.new.items ≡ found.old.items ++ with_address address []) }
{
    match address {
        Some(address) => Ok(found.push(address)?),
        None => Ok(()),
    }
}

// Servers of which nothing is known.
pub fn unknowns(
    alloc: Global,
    hosts: &[ServerAddress],
) -> Result<Vec<ServerDescription>, OutOfMemory>
    ensures { IfOk result (λ servers. servers.items ≡ map unknown hosts.now) }
{
    let mut servers = Vec::with_capacity(alloc, hosts.len())?;
    for host in hosts {
        servers.push(ServerDescription::new(alloc, host)?)?;
    }
    Ok(servers)
}

impl TopologyDescription {
    /// The servers, with room for so many more; the topology is left without servers, or as it was where there is no
    /// memory.
    pub(crate) fn servers_with_room(
        &mut self,
        alloc: Global,
        more: usize,
    ) -> Result<Vec<ServerDescription>, OutOfMemory>
        ensures emptied { OnOk result (self.new ≡ record self.old { servers = [] }) }
        ensures servers { IfOk result (λ servers. servers.items ≡ self.old.servers) }
        ensures ordered { IfOk result (λ servers. in_order servers.items ≡ true) }
        ensures room { IfOk result (λ servers. vec_len servers + more ≤ vec_capacity servers) }
        ensures unchanged { OnErr result (self.new ≡ self.old) }
    {
        let empty = Items::new(Vec::new(alloc));
        let mut servers = mem::replace(&mut self.servers, empty).into_inner();
        if servers.reserve(more).is_err() {
            self.servers = Items::new(servers);
            return Err(OutOfMemory);
        }
        Ok(servers)
    }
}

// Why the driver cannot speak to one of the servers after the change: to the first one to which it cannot. A
// server of which nothing is known is never such a one.
pub fn error_after(
    alloc: Global,
    change: &Change,
    server: &ServerDescription,
    listed: &[ServerAddress],
    servers: &[ServerDescription],
) -> Result<Option<Text>, OutOfMemory>
    ensures { IfOk result (λ error. error ≡ first_incompatible (changed_servers change.now server.now listed.now servers.now)) }
{
    let mut met = false;
    for old in servers {
        let takes = takes_place(met, server, old);
        let now = standing(takes, server, old);
        let kept = is_kept(change, &server.address, listed, now);
        let error = error_if(alloc, kept, now)?;
        match error {
            Some(text) => return Ok(Some(text)),
            None => {}
        }
        met = either(met, takes);
    }
    Ok(None)
}

// Why the driver cannot speak to the server, where it is kept.
pub fn error_if(
    alloc: Global,
    kept: bool,
    server: &ServerDescription,
) -> Result<Option<Text>, OutOfMemory>
    ensures { IfOk result (λ error. error ≡ reason_if kept server.now) }
{
    if !kept {
        return Ok(None);
    }
    match server.compatibility_error_message(alloc)? {
        Some(text) => Ok(Some(Text::new(text))),
        None => Ok(None),
    }
}

fn either(a: bool, b: bool) -> bool
    ensures { result ≡ a || b }
{
    a || b
}

// The description stands in the place of an old one of its address, unless it already stands.
fn takes_place(met: bool, server: &ServerDescription, old: &ServerDescription) -> bool
    ensures { result ≡ takes_place met server.now old.now }
{
    !met && old.address.is(&server.address)
}

fn standing<'a>(
    takes: bool,
    server: &'a ServerDescription,
    old: &'a ServerDescription,
) -> &'a ServerDescription
    ensures { result.now ≡ standing takes server.now old.now }
{
    if takes { server } else { old }
}

// The server keeps what is said of it: it is not forgotten, and it does not go.
fn is_kept(
    change: &Change,
    address: &ServerAddress,
    listed: &[ServerAddress],
    server: &ServerDescription,
) -> bool
    ensures { result ≡ is_kept change.now address.now listed.now server.now }
{
    let own = server.address.is(address);
    let forgotten = change.demotes && is_primary_type(server.server_type) && !own;
    let gone = change.only_listed && !is_listed(listed, &server.address);
    !forgotten && !gone && (!own || matches!(change.fate, Fate::Stays))
}

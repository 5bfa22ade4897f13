//! Changes of a list of servers. Only `join` may take memory, and where the list has room it takes none.

ghost use Rattle.std.specs.Prelude.{◌≡◌, ◌<◌, ◌≤◌, ◌+◌, not, ◌&&◌, length, if◌then◌else◌, OnOk, OnErr, IsOk, IfSome, IfNone, option_copied, set};
ghost use Rattle.std.specs.List.{insert};
ghost use Rattle.std.specs.Vec.{vec_len, vec_capacity};
ghost use Rattle.mdb_base.specs.Equality.{same_address};
ghost use Rattle.mdb_describe.specs.declared.description.ServerDescription.{ServerDescription};
ghost use Rattle.mdb_describe.specs.Descriptions.{unknown};
ghost use Rattle.mdb_describe.specs.Servers.{is_known, is_listed, is_primary_type, has_primary, has_other_primary, store, remove, forget, forget_other_primaries, put, keep_listed};
ghost use Rattle.mdb_describe.specs.Joining.{join};
ghost use Rattle.mdb_describe.specs.Topology.{server_at};

use crate::description::ServerDescription;
use mdb_base::{OutOfMemory, ServerAddress};
use mdb_hello::ServerType;
use std::mem;

/// One of the servers has this address.
pub fn is_known(servers: &[ServerDescription], address: &ServerAddress) -> bool
    ensures { result ≡ is_known address.now servers.now }
{
    servers.iter().any(|server| server.address.is(address))
}

/// The first server with this address.
pub fn server_at<'a>(
    servers: &'a [ServerDescription],
    address: &ServerAddress,
) -> Option<&'a ServerDescription>
    ensures { option_copied result ≡ server_at address.now servers.now }
{
    servers.iter().find(|server| server.address.is(address))
}

/// This is one of the addresses.
pub fn is_listed(listed: &[ServerAddress], address: &ServerAddress) -> bool
    ensures { result ≡ is_listed listed.now address.now }
{
    listed.iter().any(|other| other.is(address))
}

/// Some server is a primary.
pub fn has_primary(servers: &[ServerDescription]) -> bool
    ensures { result ≡ has_primary servers.now }
{
    servers
        .iter()
        .any(|server| is_primary_type(server.server_type))
}

/// Some server is a primary, and not the one with this address.
pub fn has_other_primary(servers: &[ServerDescription], address: &ServerAddress) -> bool
    ensures { result ≡ has_other_primary address.now servers.now }
{
    servers
        .iter()
        .any(|server| server.is_other_primary(address))
}

pub fn is_primary_type(kind: ServerType) -> bool
    ensures { result ≡ is_primary_type kind }
{
    matches!(kind, ServerType::RsPrimary)
}

/// The description takes the place of the first one of its address.
pub fn store(servers: &mut [ServerDescription], server: ServerDescription)
    ensures { servers.new ≡ store server servers.old }
{
    match place_of(servers, &server.address) {
        Some(at) => drop(mem::replace(&mut servers[at], server)),
        None => drop(server),
    }
}

// Where the first server with this address stands.
fn place_of(servers: &[ServerDescription], address: &ServerAddress) -> Option<usize>
    ensures within { IfSome result (λ at. at < length servers.now) }
    ensures found { IfSome result (λ at. (d : ServerDescription) → d.address ≡ address.now → store d servers.now ≡ set servers.now at d) }
    ensures none { IfNone result ((d : ServerDescription) → d.address ≡ address.now → store d servers.now ≡ servers.now) }
{
    for at in 0..servers.len() {
        if servers[at].address.is(address) {
            return Some(at);
        }
    }
    None
}

impl ServerDescription {
    // The server is a primary, and not the one with this address.
    fn is_other_primary(&self, address: &ServerAddress) -> bool
        ensures { result ≡ is_primary_type self.now.server_type && not (same_address self.now.address address.now) }
    {
        is_primary_type(self.server_type) && !self.address.is(address)
    }

    // Nothing more is known of the server, where it is to be forgotten.
    fn forget_if(&mut self, forgets: bool)
        ensures { self.new ≡ (if forgets then unknown self.old.address else self.old) }
    {
        if forgets {
            self.server_type = ServerType::Unknown;
            self.last_update_time = None;
            self.average_round_trip_time = None;
            self.reply = Ok(None);
        }
    }
}

/// Nothing more is known of the server.
pub fn forget(servers: &mut [ServerDescription], address: &ServerAddress)
    ensures { servers.new ≡ forget address.now servers.old }
{
    for server in servers.iter_mut() {
        let forgets = server.address.is(address);
        server.forget_if(forgets);
    }
}

/// Nothing more is known of the primaries but this one.
pub fn forget_other_primaries(servers: &mut [ServerDescription], address: &ServerAddress)
    ensures { servers.new ≡ forget_other_primaries address.now servers.old }
{
    for server in servers.iter_mut() {
        let forgets = server.is_other_primary(address);
        server.forget_if(forgets);
    }
}

/// The server goes.
pub fn remove(servers: &mut Vec<ServerDescription>, address: &ServerAddress)
    ensures { servers.new.items ≡ remove address.now servers.old.items }
{
    servers.retain(|server| !server.address.is(address));
}

/// Only the servers with these addresses stay.
pub fn keep_listed(servers: &mut Vec<ServerDescription>, listed: &[ServerAddress])
    ensures { servers.new.items ≡ keep_listed listed.now servers.old.items }
{
    servers.retain(|server| is_listed(listed, &server.address));
}

// Where a server with this address belongs.
fn place_for(servers: &[ServerDescription], address: &ServerAddress) -> usize
    ensures within { result ≤ length servers.now }
    ensures place { (d : ServerDescription) → d.address ≡ address.now → put d servers.now ≡ insert servers.now result d }
{
    for at in 0..servers.len() {
        if address.is_before(&servers[at].address) {
            return at;
        }
    }
    servers.len()
}

/// The server joins at its place in the order of addresses, where its address is new.
pub fn join(
    servers: &mut Vec<ServerDescription>,
    server: ServerDescription,
) -> Result<(), OutOfMemory>
    ensures joined { OnOk result (servers.new.items ≡ join server servers.old.items) }
    ensures unchanged { OnErr result (servers.new.items ≡ servers.old.items) }
    ensures succeeds { vec_len servers.old < vec_capacity servers.old → IsOk result }
    ensures room { vec_capacity servers.old ≤ vec_capacity servers.new }
    ensures len { vec_len servers.new ≤ vec_len servers.old + 1 }
{
    if is_known(servers.as_slice(), &server.address) {
        return Ok(());
    }
    let at = place_for(servers.as_slice(), &server.address);
    servers.insert(at, server)?;
    Ok(())
}

/// One more server where none has its address, in a list that has room for it, so that no memory is taken.
pub fn join_within(servers: &mut Vec<ServerDescription>, server: ServerDescription)
    requires { vec_len servers.old < vec_capacity servers.old }
    ensures joined { servers.new.items ≡ join server servers.old.items }
    ensures room { vec_capacity servers.old ≤ vec_capacity servers.new }
    ensures len { vec_len servers.new ≤ vec_len servers.old + 1 }
{
    let _joined = join(servers, server).is_ok();
}

//! Carrying out a change. No memory is taken: the list has room for the servers that join.

ghost use Rattle.std.specs.Prelude.{◌≡◌, ◌+◌, ◌≤◌, length, map, true, if◌then◌else◌};
ghost use Rattle.std.specs.Vec.{vec_len, vec_capacity};
ghost use Rattle.mdb_describe.specs.Descriptions.{unknown};
ghost use Rattle.mdb_describe.specs.Servers.{store, forget_other_primaries, add_all, keep_listed, in_order};
ghost use Rattle.mdb_describe.specs.Joining.{join_all};
ghost use Rattle.mdb_describe.specs.Changes.{changed_servers, by_fate};

use crate::change::{Change, Fate};
use crate::description::ServerDescription;
use crate::servers::{forget, forget_other_primaries, join_within, keep_listed, remove, store};
use mdb_base::ServerAddress;

/// The servers after a change of the description of the server with this address.
pub fn carry_out(
    servers: &mut Vec<ServerDescription>,
    change: &Change,
    server: ServerDescription,
    address: &ServerAddress,
    listed: &[ServerAddress],
    unknowns: Vec<ServerDescription>,
)
    requires room { vec_len servers.old + length unknowns.items ≤ vec_capacity servers.old }
    requires own { address.now ≡ server.address }
    requires unknowns { unknowns.items ≡ map unknown listed.now }
    ensures carried { servers.new.items ≡ changed_servers change.now server listed.now servers.old.items }
    ensures ordered { in_order servers.old.items ≡ true → in_order servers.new.items ≡ true }
{
    put_in(servers, server);
    demote(servers, change.demotes, address);
    add(servers, change.adds, unknowns);
    keep(servers, change.only_listed, listed);
    end(servers, change.fate, address);
}

/// The description takes the place of the first one of its address.
pub fn put_in(servers: &mut Vec<ServerDescription>, server: ServerDescription)
    ensures items { servers.new.items ≡ store server servers.old.items }
    ensures room { vec_capacity servers.new ≡ vec_capacity servers.old }
    ensures len { vec_len servers.new ≡ vec_len servers.old }
{
    store(servers.as_mut_slice(), server);
}

fn demote(servers: &mut Vec<ServerDescription>, demotes: bool, address: &ServerAddress)
    ensures items { servers.new.items ≡ (if demotes then forget_other_primaries address.now servers.old.items else servers.old.items) }
    ensures room { vec_capacity servers.new ≡ vec_capacity servers.old }
    ensures len { vec_len servers.new ≡ vec_len servers.old }
{
    if demotes {
        forget_other_primaries(servers.as_mut_slice(), address);
    }
}

fn add(servers: &mut Vec<ServerDescription>, adds: bool, unknowns: Vec<ServerDescription>)
    requires { vec_len servers.old + length unknowns.items ≤ vec_capacity servers.old }
    ensures { servers.new.items ≡ (if adds then join_all unknowns.items servers.old.items else servers.old.items) }
{
    if adds {
        join_all(servers, unknowns);
    }
}

pub fn join_all(servers: &mut Vec<ServerDescription>, unknowns: Vec<ServerDescription>)
    requires { vec_len servers.old + length unknowns.items ≤ vec_capacity servers.old }
    ensures { servers.new.items ≡ join_all unknowns.items servers.old.items }
{
    for server in unknowns {
        join_within(servers, server);
    }
}

/// The hosts become the servers: new ones join, and the others go.
pub fn follow(
    servers: &mut Vec<ServerDescription>,
    hosts: &[ServerAddress],
    unknowns: Vec<ServerDescription>,
)
    requires room { vec_len servers.old + length unknowns.items ≤ vec_capacity servers.old }
    requires unknowns { unknowns.items ≡ map unknown hosts.now }
    ensures followed { servers.new.items ≡ keep_listed hosts.now (add_all hosts.now servers.old.items) }
    ensures ordered { in_order servers.old.items ≡ true → in_order servers.new.items ≡ true }
{
    join_all(servers, unknowns);
    keep_listed(servers, hosts);
}

fn keep(servers: &mut Vec<ServerDescription>, only_listed: bool, listed: &[ServerAddress])
    ensures { servers.new.items ≡ (if only_listed then keep_listed listed.now servers.old.items else servers.old.items) }
{
    if only_listed {
        keep_listed(servers, listed);
    }
}

fn end(servers: &mut Vec<ServerDescription>, fate: Fate, address: &ServerAddress)
    ensures { servers.new.items ≡ by_fate fate address.now servers.old.items }
{
    match fate {
        Fate::Stays => {}
        Fate::Forgotten => forget(servers.as_mut_slice(), address),
        Fate::Gone => remove(servers, address),
    }
}

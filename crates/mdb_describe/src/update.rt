//! How a topology takes a new description of one of its servers.

ghost use Rattle.std.specs.Prelude.{◌≡◌, ◌+◌, ◌≤◌, [], length, map, IfOk, OnOk, OnErr, true, if◌then◌else◌};
ghost use Rattle.std.specs.Vec.{vec_len, vec_capacity};
ghost use Rattle.mdb_describe.specs.Descriptions.{unknown};
ghost use Rattle.mdb_describe.specs.Fields.{set_name};
ghost use Rattle.mdb_describe.specs.Update.{decided, listed, updated, is_misnamed, is_new, is_older, name_or};
ghost use Rattle.mdb_describe.specs.Changes.{changed_servers, changed_type};
ghost use Rattle.mdb_describe.specs.Servers.{first_incompatible, in_order};

use crate::carrying::carry_out;
use crate::change::Change;
use crate::description::ServerDescription;
use crate::preparation::{Prepared, error_after, listed, unknowns};
use crate::servers::has_primary;
use crate::topology::TopologyDescription;
use mdb_base::{Items, OutOfMemory, Text, TopologyVersion};
use mdb_hello::ServerType;
use mdb_srv::TopologyType;
use std::alloc::Global;

impl TopologyDescription {
    /// Takes a new description of a server (SDAM, "Updating the TopologyDescription"). One of an unknown address,
    /// and one with a topology version older than the known one, change nothing.
    pub fn update(&mut self, alloc: Global, server: ServerDescription) -> Result<(), OutOfMemory>
        ensures done { OnOk result (self.new ≡ updated self.old server) }
        ensures unchanged { OnErr result (self.new ≡ self.old) }
    {
        if !self.is_new(&server) {
            return Ok(());
        }
        if self.is_misnamed(&server) {
            self.take(alloc, server.blank())
        } else {
            self.take(alloc, server)
        }
    }

    // The server is known, and what is known of it is not newer.
    pub(crate) fn is_new(&self, server: &ServerDescription) -> bool
        ensures { result ≡ is_new self.now server.now }
    {
        match self.server(&server.address) {
            Some(known) => !is_older(server.topology_version(), known.topology_version()),
            None => false,
        }
    }

    // A server of a single topology with a set name that names another set or none.
    pub(crate) fn is_misnamed(&self, server: &ServerDescription) -> bool
        ensures { result ≡ is_misnamed self.now.topology_type self.now server.now }
    {
        matches!(self.topology_type, TopologyType::Single)
            && server.response().is_some()
            && self.names_other(server)
    }

    fn take(&mut self, alloc: Global, server: ServerDescription) -> Result<(), OutOfMemory>
        ensures done { OnOk result (self.new ≡ decided self.old server) }
        ensures unchanged { OnErr result (self.new ≡ self.old) }
    {
        let change = self.decide(&server);
        match self.prepare(alloc, &change, &server) {
            Ok(prepared) => {
                self.carry(&change, server, prepared);
                Ok(())
            }
            Err(e) => {
                drop(server);
                Err(e)
            }
        }
    }

    // What the change needs. The servers leave the topology for it.
    fn prepare(
        &mut self,
        alloc: Global,
        change: &Change,
        server: &ServerDescription,
    ) -> Result<Prepared, OutOfMemory>
        ensures emptied { OnOk result (self.new ≡ record self.old { servers = [] }) }
        ensures unchanged { OnErr result (self.new ≡ self.old) }
        ensures address { IfOk result (λ p. p.address ≡ server.now.address) }
        ensures listed { IfOk result (λ p. p.listed.items ≡ listed server.now) }
        ensures unknowns { IfOk result (λ p. p.unknowns.items ≡ map unknown (listed server.now)) }
        ensures name { IfOk result (λ p. p.set_name ≡ (if change.now.learns then name_or self.old.set_name (set_name server.now) else self.old.set_name)) }
        ensures error { IfOk result (λ p. p.error ≡ first_incompatible (changed_servers change.now server.now (listed server.now) self.old.servers)) }
        ensures servers { IfOk result (λ p. p.servers.items ≡ self.old.servers) }
        ensures ordered { IfOk result (λ p. in_order p.servers.items ≡ true) }
        ensures room { IfOk result (λ p. vec_len p.servers + length p.unknowns.items ≤ vec_capacity p.servers) }
    {
        let address = server.address.clone()?;
        let listed = listed(alloc, server)?;
        let unknowns = unknowns(alloc, listed.as_slice())?;
        let set_name = self.name_after(change.learns, server)?;
        let error = error_after(alloc, change, server, listed.as_slice(), self.servers())?;
        let servers = self.servers_with_room(alloc, unknowns.len())?;
        Ok(Prepared {
            address,
            listed,
            unknowns,
            set_name,
            error,
            servers,
        })
    }

    // Carries the change out. No memory is taken.
    fn carry(&mut self, change: &Change, server: ServerDescription, prepared: Prepared)
        requires room { vec_len prepared.servers + length prepared.unknowns.items ≤ vec_capacity prepared.servers }
        requires own { prepared.address ≡ server.address }
        requires unknowns { prepared.unknowns.items ≡ map unknown prepared.listed.items }
        requires ordered { in_order prepared.servers.items ≡ true }
        ensures carried { let after = changed_servers change.now server prepared.listed.items prepared.servers.items in self.new ≡ record self.old { topology_type = changed_type change.now after; set_name = prepared.set_name; max_set_version = change.now.max_set_version; max_election_id = change.now.max_election_id; compatibility_error = prepared.error; servers = after } }
    {
        let Prepared {
            address,
            listed,
            unknowns,
            set_name,
            error,
            mut servers,
        } = prepared;
        carry_out(
            &mut servers,
            change,
            server,
            &address,
            listed.as_slice(),
            unknowns,
        );
        self.topology_type = type_after(change, servers.as_slice());
        self.set_name = set_name;
        self.max_set_version = change.max_set_version;
        self.max_election_id = change.max_election_id;
        self.compatibility_error = error;
        self.servers = Items::new(servers);
    }

    // The set name after the change.
    fn name_after(
        &self,
        learns: bool,
        server: &ServerDescription,
    ) -> Result<Option<Text>, OutOfMemory>
        ensures { IfOk result (λ name. name ≡ (if learns then name_or self.now.set_name (set_name server.now) else self.now.set_name)) }
    {
        match &self.set_name {
            Some(name) => Ok(Some(name.clone()?)),
            None => {
                if !learns {
                    return Ok(None);
                }
                match server.set_name() {
                    Some(name) => Ok(Some(name.clone()?)),
                    None => Ok(None),
                }
            }
        }
    }
}

impl ServerDescription {
    // Nothing is known of the server any more.
    fn blank(self) -> ServerDescription
        ensures { result ≡ unknown self.address }
    {
        ServerDescription {
            address: self.address,
            server_type: ServerType::Unknown,
            last_update_time: None,
            average_round_trip_time: None,
            reply: Ok(None),
        }
    }
}

// The description says something older than what is known.
fn is_older(version: Option<TopologyVersion>, known: Option<TopologyVersion>) -> bool
    ensures { result ≡ is_older version known }
{
    match (version, known) {
        (Some(version), Some(known)) => {
            version.process_id == known.process_id && version.counter < known.counter
        }
        _ => false,
    }
}

// The type after the change, by the servers after it.
fn type_after(change: &Change, servers: &[ServerDescription]) -> TopologyType
    ensures { result ≡ changed_type change.now servers.now }
{
    if !change.checks {
        change.topology_type
    } else if has_primary(servers) {
        TopologyType::ReplicaSetWithPrimary
    } else {
        TopologyType::ReplicaSetNoPrimary
    }
}

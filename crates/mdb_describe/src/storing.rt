//! A description that only takes the place of the one before it: it needs no copy of the other servers.

ghost use Rattle.std.specs.Prelude.{◌≡◌, IfOk, true};
ghost use Rattle.mdb_srv.specs.declared.topology_type.TopologyType.TheVariants as Kind;
ghost use Rattle.mdb_describe.specs.Repeated.{IsRepeated};
ghost use Rattle.mdb_describe.specs.Update.{check, decided, stored, table, updated, with_compatibility};

use crate::carrying::put_in;
use crate::decide::stays;
use crate::description::ServerDescription;
use crate::preparation::error_after;
use crate::servers::{has_other_primary, server_at};
use crate::topology::TopologyDescription;
use mdb_base::{Items, OutOfMemory};
use mdb_hello::ServerType;
use mdb_srv::TopologyType;
use std::alloc::Global;
use std::mem;

impl TopologyDescription {
    /// The description says again what is known of its server, and an update with it changes nothing but the times and
    /// the text of the reply, so that `store` does it. It is found out for most replies: of any server of a single or a
    /// sharded topology, and of a member that is no primary in a set that has one. `false` says nothing. Memory is taken
    /// only where the driver cannot speak to some server.
    pub fn is_repeated(
        &self,
        alloc: Global,
        server: &ServerDescription,
    ) -> Result<bool, OutOfMemory>
        ensures { IfOk result (λ again. again ≡ true → IsRepeated self.now server.now) }
    {
        match server_at(self.servers(), &server.address) {
            Some(known) => Ok(known.same(server) && self.only_stores(alloc, server)?),
            None => Ok(false),
        }
    }

    // An update with the description stores it and changes nothing else.
    fn only_stores(&self, alloc: Global, server: &ServerDescription) -> Result<bool, OutOfMemory>
        ensures { IfOk result (λ only. only ≡ true → updated self.now server.now ≡ stored self.now server.now) }
    {
        if !self.is_new(server) || self.is_misnamed(server) || !self.decides_no_more(server) {
            return Ok(false);
        }
        if self.compatibility_error.is_some() {
            return Ok(false);
        }
        let error = error_after(alloc, &stays(self), server, &[], self.servers())?;
        Ok(error.is_none())
    }

    /// The description takes the place of the one of its server, and nothing else changes. No memory is taken.
    pub fn store(&mut self, alloc: Global, server: ServerDescription)
        ensures { self.new ≡ stored self.old server }
    {
        let empty = Items::new(Vec::new(alloc));
        let mut servers = mem::replace(&mut self.servers, empty).into_inner();
        put_in(&mut servers, server);
        self.servers = Items::new(servers);
    }

    // By the types of the topology and of the server the description is stored, and no more is decided.
    fn decides_no_more(&self, server: &ServerDescription) -> bool
        ensures { result ≡ true → decided self.now server.now ≡ with_compatibility (stored self.now server.now) }
    {
        match self.topology_type {
            TopologyType::Single | TopologyType::LoadBalanced => true,
            TopologyType::Sharded => match server.server_type {
                ServerType::Mongos | ServerType::Unknown => true,
                _ => false,
            },
            TopologyType::Unknown | TopologyType::ReplicaSetNoPrimary => match server.server_type {
                ServerType::Unknown | ServerType::RsGhost => true,
                _ => false,
            },
            TopologyType::ReplicaSetWithPrimary => {
                self.only_checks(server) && has_other_primary(self.servers(), &server.address)
            }
        }
    }

    // In a set with a primary nothing is asked but whether there still is one.
    fn only_checks(&self, server: &ServerDescription) -> bool
        ensures { result ≡ true → table Kind.ReplicaSetWithPrimary server.now.server_type (stored self.now server.now) server.now ≡ check (stored self.now server.now) }
    {
        match server.server_type {
            ServerType::Unknown | ServerType::RsGhost => true,
            ServerType::RsSecondary | ServerType::RsArbiter | ServerType::RsOther => {
                !self.names_other(server) && !server.invalid_me()
            }
            _ => false,
        }
    }
}

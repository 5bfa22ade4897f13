//! What a step makes known of the topology (SDAM, "Updating the TopologyDescription").

ghost use Rattle.std.specs.Prelude.{◌≡◌, IfOk};
ghost use Rattle.mdb_describe.specs.Descriptions.{from_reply};
ghost use Rattle.mdb_driver_rules.specs.Monitors.{hello_reply};

use crate::topology::TopologyCore;
use mdb_base::{ClusterTime, Doc, Document, Error, Moment, Nanos, OutOfMemory, ServerAddress};
use mdb_describe::{ServerDescription, TopologyDescription};
use mdb_hello::{HelloCommandResponse, HelloReply};
use std::alloc::{AllocError, Global};

// The reply of a step, which has no document and no time of the cluster.
pub(crate) fn hello_reply(
    alloc: Global,
    address: &ServerAddress,
    reply: &HelloCommandResponse,
) -> Result<HelloReply, AllocError>
    ensures { IfOk result (λ made. made ≡ hello_reply address.now reply.now) }
{
    let server_address = address.clone()?;
    let command_response = reply.clone()?;
    let nothing = Doc {
        fields: Vec::new(alloc),
    };
    Ok(HelloReply {
        server_address,
        command_response,
        raw_command_response: Document::new(nothing),
        cluster_time: None,
    })
}

// A server as the reply of a step describes it.
pub(crate) fn described(
    alloc: Global,
    address: &ServerAddress,
    rtt: Nanos,
    reply: &HelloCommandResponse,
    at: Moment,
) -> Result<ServerDescription, OutOfMemory>
    ensures { IfOk result (λ server. server ≡ from_reply address.now (hello_reply address.now reply.now) rtt at) }
{
    let copy = address.clone()?;
    let reply = hello_reply(alloc, address, reply)?;
    ServerDescription::new_from_hello_reply(alloc, copy, reply, rtt, at)
}

impl TopologyCore {
    ghost use Rattle.mdb_describe.specs.Descriptions.{failed};
    ghost use Rattle.mdb_describe.specs.Topology.{synced, stopped, later_time};
    ghost use Rattle.mdb_describe.specs.Update.{updated};

    // What is known after a new description of a server.
    pub(crate) fn updated(
        &self,
        alloc: Global,
        server: ServerDescription,
    ) -> Result<TopologyDescription, OutOfMemory>
        ensures { IfOk result (λ next. next ≡ updated self.now.description server) }
    {
        match self.description.clone() {
            Ok(mut next) => match next.update(alloc, server) {
                Ok(()) => Ok(next),
                Err(e) => {
                    drop(next);
                    Err(e)
                }
            },
            Err(_) => {
                drop(server);
                Err(OutOfMemory)
            }
        }
    }

    // What is known after an error about a server.
    pub(crate) fn after_error(
        &self,
        alloc: Global,
        address: &ServerAddress,
        error: &Error,
    ) -> Result<TopologyDescription, OutOfMemory>
        ensures { IfOk result (λ next. next ≡ updated self.now.description (failed address.now error.now)) }
    {
        let address = address.clone()?;
        let error = error.clone()?;
        self.updated(alloc, ServerDescription::new_from_error(address, error))
    }

    // What is known after the names of the hosts.
    pub(crate) fn after_hosts(
        &self,
        alloc: Global,
        hosts: &[ServerAddress],
    ) -> Result<TopologyDescription, OutOfMemory>
        ensures { IfOk result (λ next. next ≡ synced hosts.now self.now.description) }
    {
        match self.description.clone() {
            Ok(mut next) => match next.sync_hosts(alloc, hosts) {
                Ok(()) => Ok(next),
                Err(e) => {
                    drop(next);
                    Err(e)
                }
            },
            Err(_) => Err(OutOfMemory),
        }
    }

    // What is known after a time of the cluster.
    pub(crate) fn after_time(&self, time: ClusterTime) -> Result<TopologyDescription, OutOfMemory>
        ensures { IfOk result (λ next. next ≡ record self.now.description { cluster_time = later_time self.now.description.cluster_time time }) }
    {
        let mut next = self.description.clone()?;
        next.advance_cluster_time(time);
        Ok(next)
    }

    // What is known after the stop.
    pub(crate) fn after_stop(&self) -> Result<TopologyDescription, OutOfMemory>
        ensures { IfOk result (λ next. next ≡ stopped self.now.description) }
    {
        let mut next = self.description.clone()?;
        next.stop();
        Ok(next)
    }
}

//! Opening a topology, stopping it, and taking the hosts that DNS gave.

ghost use Rattle.std.specs.Prelude.{◌≡◌, [], true, IfOk, OnOk, OnErr};
ghost use Rattle.mdb_describe.specs.Topology.{opened, opened_type, stopped, synced};
ghost use Rattle.mdb_describe.specs.Servers.{add_all, keep_listed, first_incompatible, in_order};

use crate::carrying::follow;
use crate::description::ServerDescription;
use crate::preparation::{error_if, unknowns};
use crate::servers::{is_listed, join};
use crate::topology::TopologyDescription;
use mdb_base::{Items, Options, OutOfMemory, ServerAddress, Text};
use mdb_srv::{TopologyType, should_poll};
use std::alloc::Global;

impl TopologyDescription {
    /// What is known as the driver is opened: the seeds, and nothing of them (SDAM, "Initial servers" and "Initial
    /// TopologyType").
    pub fn initialize(alloc: Global, options: &Options) -> Result<TopologyDescription, OutOfMemory>
        ensures { IfOk result (λ t. t ≡ opened options.now) }
    {
        let set_name = name_of(options)?;
        let servers = seeds(alloc, options.seeds.as_slice())?;
        Ok(TopologyDescription {
            topology_type: opened_type(options),
            set_name,
            max_set_version: None,
            max_election_id: None,
            one_seed: options.seeds.as_slice().len() == 1,
            compatibility_error: None,
            servers: Items::new(servers),
            cluster_time: None,
        })
    }

    /// The hosts become the servers, in Unknown and Sharded topologies: new ones join as Unknown, and the others go
    /// ("Polling SRV Records for mongos Discovery"). Other topologies stay as they are.
    pub fn sync_hosts(&mut self, alloc: Global, hosts: &[ServerAddress]) -> Result<(), OutOfMemory>
        ensures done { OnOk result (self.new ≡ synced hosts.now self.old) }
        ensures unchanged { OnErr result (self.new ≡ self.old) }
    {
        if !should_poll(self.topology_type) {
            return Ok(());
        }
        let unknowns = unknowns(alloc, hosts)?;
        let error = error_among(alloc, hosts, self.servers())?;
        let mut servers = self.servers_with_room(alloc, unknowns.len())?;
        follow(&mut servers, hosts, unknowns);
        self.compatibility_error = error;
        self.servers = Items::new(servers);
        Ok(())
    }

    /// No server is left, and the type is Unknown. The set name, the maxima and the cluster time stay. No memory is
    /// taken.
    pub fn stop(&mut self)
        ensures { self.new ≡ stopped self.old }
    {
        self.topology_type = TopologyType::Unknown;
        self.compatibility_error = None;
        self.servers.clear();
    }
}

fn name_of(options: &Options) -> Result<Option<Text>, OutOfMemory>
    ensures { IfOk result (λ name. name ≡ options.now.set_name) }
{
    match &options.set_name {
        Some(name) => Ok(Some(name.clone()?)),
        None => Ok(None),
    }
}

fn opened_type(options: &Options) -> TopologyType
    ensures { result ≡ opened_type options.now }
{
    if options.load_balanced {
        TopologyType::LoadBalanced
    } else if options.direct {
        TopologyType::Single
    } else if options.set_name.is_some() {
        TopologyType::ReplicaSetNoPrimary
    } else {
        TopologyType::Unknown
    }
}

// The seeds in the order of their addresses.
fn seeds(alloc: Global, seeds: &[ServerAddress]) -> Result<Vec<ServerDescription>, OutOfMemory>
    ensures items { IfOk result (λ servers. servers.items ≡ add_all seeds.now []) }
    ensures ordered { IfOk result (λ servers. in_order servers.items ≡ true) }
{
    let mut servers = Vec::new(alloc);
    for seed in seeds {
        let fresh = ServerDescription::new(alloc, seed)?;
        join(&mut servers, fresh)?;
    }
    Ok(servers)
}

// Why the driver cannot speak to the first of the listed servers to which it cannot. One of which nothing is known
// is never such a one.
fn error_among(
    alloc: Global,
    listed: &[ServerAddress],
    servers: &[ServerDescription],
) -> Result<Option<Text>, OutOfMemory>
    ensures { IfOk result (λ error. error ≡ first_incompatible (keep_listed listed.now (add_all listed.now servers.now))) }
{
    for server in servers {
        let kept = is_listed(listed, &server.address);
        let error = error_if(alloc, kept, server)?;
        match error {
            Some(text) => return Ok(Some(text)),
            None => {}
        }
    }
    Ok(None)
}

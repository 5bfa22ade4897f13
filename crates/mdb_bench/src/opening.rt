//! Drivers of servers that all greet alike.

ghost use Rattle.std.specs.Prelude.{IfOk};
ghost use Rattle.mdb_log.specs.Acts.{IsDriverAct};
ghost use Rattle.mdb_topology.specs.Logging.{IsDriverOf};

use crate::errors::BenchError;
use crate::plan::{Kind, Plan};
use mdb_base::{Error, ErrorKind, Items, ObjectId, Options, ServerAddress, Text};
use mdb_events::Boxed;
use mdb_hello::HelloCommandResponse;
use mdb_log::{Act, HelloResult, Log};
use mdb_topology::TopologyCore;
use std::alloc::Global;

// How many connections a pool has at least, where something goes wrong from time to time.
const LEAST: u32 = 2;

// How long a check takes, in nanoseconds.
const CHECK: u64 = 5;

// The first server's number in its name, so that all names are as long.
const FIRST: u32 = 100;

fn add_address(
    addresses: &mut Vec<ServerAddress>,
    alloc: Global,
    server: u32,
) -> Result<(), BenchError> {
    let number = FIRST.wrapping_add(server);
    let host = format!(in alloc; "s{number}")?;
    let address = ServerAddress::new(host, 1)?;
    match addresses.push(address) {
        Ok(()) => Ok(()),
        Err(_) => Err(BenchError::OutOfMemory),
    }
}

/// The addresses of the first so many servers.
pub fn addresses(alloc: Global, servers: u32) -> Result<Vec<ServerAddress>, BenchError> {
    let mut addresses = Vec::new(alloc);
    for server in 0..servers {
        add_address(&mut addresses, alloc, server)?;
    }
    Ok(addresses)
}

/// The address of the server of this number.
pub fn address_of(addresses: &[ServerAddress], server: u32) -> Result<ServerAddress, BenchError> {
    match addresses.get(server as usize) {
        Some(address) => Ok(address.clone()?),
        None => Err(BenchError::Answer),
    }
}

// The pool behind a load balancer, of which a proxy is made, is ready from the start.
fn options(seeds: Vec<ServerAddress>, plan: Plan) -> Options {
    let is_balanced = matches!(plan.kind, Kind::Proxy);
    let is_lasting = matches!(plan.kind, Kind::Lasting);
    Options {
        seeds: Items::new(seeds),
        set_name: None,
        direct: false,
        load_balanced: is_balanced,
        max_pool_size: Some(plan.connections),
        min_pool_size: if is_lasting { Some(LEAST) } else { None },
        max_connecting: if is_balanced {
            Some(plan.connections)
        } else {
            None
        },
        max_idle_time: None,
        max_wait: None,
        heartbeat: None,
        connect: None,
        streaming: None,
        limit_id: None,
        limit_generation: None,
        limit_pool: None,
        limit_monitor: None,
        topology_id: ObjectId([0; 12]),
    }
}

/// A driver of the servers, with its log.
pub fn open(alloc: Global, plan: Plan) -> Result<(TopologyCore, Log), BenchError>
    ensures { IfOk result (λ opened. IsDriverOf opened.0 opened.1) }
{
    let options = options(addresses(alloc, plan.servers)?, plan);
    let is_broken = options.check().is_some();
    if is_broken {
        drop(options);
        return Err(BenchError::Options);
    }
    let mut log = Log::new(alloc);
    match TopologyCore::open_seeds(alloc, &mut log, 0, options) {
        Ok(core) => Ok((core, log)),
        Err(_) => {
            drop(log);
            Err(BenchError::OutOfMemory)
        }
    }
}

// The reply of a router.
fn greeting(alloc: Global) -> Result<Boxed<HelloCommandResponse>, BenchError> {
    let msg = Text::new(String::from_str(alloc, "isdbgrid")?);
    let mut reply = HelloCommandResponse::default();
    reply.min_wire_version = Some(0);
    reply.max_wire_version = Some(21);
    reply.msg = Some(msg);
    Ok(Boxed::new(alloc, reply)?)
}

/// A router at the server greets, for this pool of it.
pub fn hello(
    alloc: Global,
    addresses: &[ServerAddress],
    server: u32,
    pool: u32,
) -> Result<Act, BenchError>
    ensures { IfOk result IsDriverAct }
{
    let address = address_of(addresses, server)?;
    match greeting(alloc) {
        Ok(reply) => Ok(Act::Hello(address, pool, HelloResult::Ok(CHECK, reply))),
        Err(why) => {
            drop(address);
            Err(why)
        }
    }
}

/// An operation of the party met an error of the network.
pub fn network_error(alloc: Global, party: u32) -> Result<Act, BenchError>
    ensures { IfOk result IsDriverAct }
{
    let error = no_error(alloc);
    Ok(Act::Error(party, Boxed::new(alloc, error)?))
}

/// An error of the network that says nothing.
pub fn no_error(alloc: Global) -> Error {
    Error {
        kind: ErrorKind::Network,
        labels: Items::new(Vec::new(alloc)),
        topology_version: None,
        message: Text::new(String::new(alloc)),
    }
}

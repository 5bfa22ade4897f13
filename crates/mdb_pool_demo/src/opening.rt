//! A driver of one server, and the hello by which its pool becomes ready.

ghost use Rattle.std.specs.Prelude.{IfOk};
ghost use Rattle.mdb_log.specs.Acts.{IsDriverAct};
ghost use Rattle.mdb_topology.specs.Logging.{IsDriverOf};

use crate::errors::DemoError;
use mdb_base::{Items, ObjectId, Options, ServerAddress};
use mdb_events::Boxed;
use mdb_hello::HelloCommandResponse;
use mdb_log::{Act, HelloResult, Log, Step};
use mdb_topology::TopologyCore;
use std::alloc::Global;

/// The address of the server.
pub fn address(alloc: Global) -> Result<ServerAddress, DemoError> {
    Ok(ServerAddress::new(String::from_str(alloc, "a")?, 1)?)
}

// At most two connections; a caller waits for ten minutes at most, and an idle connection lives as long.
fn options(seeds: Vec<ServerAddress>) -> Options {
    Options {
        seeds: Items::new(seeds),
        set_name: None,
        direct: false,
        load_balanced: false,
        max_pool_size: Some(2),
        min_pool_size: None,
        max_connecting: None,
        max_idle_time: Some(600_000),
        max_wait: Some(600_000),
        heartbeat: None,
        connect: None,
        streaming: None,
        limit_id: None,
        limit_generation: None,
        limit_pool: None,
        limit_monitor: None,
        topology_id: ObjectId([0; 12]),
    }
}

/// A driver of the one server, with its log.
pub fn open(alloc: Global) -> Result<(TopologyCore, Log), DemoError>
    ensures { IfOk result (λ opened. IsDriverOf opened.0 opened.1) }
{
    let options = options(vec![in alloc; address(alloc)?]?);
    if options.check().is_some() {
        drop(options);
        return Err(DemoError::Options);
    }
    let mut log = Log::new(alloc);
    let core = TopologyCore::open_seeds(alloc, &mut log, 0, options)?;
    Ok((core, log))
}

/// A server alone greets, after five nanoseconds, for its pool of the number 0.
pub fn hello(alloc: Global) -> Result<Step, DemoError>
    ensures { IfOk result (λ step. IsDriverAct step.act) }
{
    let address = address(alloc)?;
    let mut reply = HelloCommandResponse::default();
    reply.min_wire_version = Some(0);
    reply.max_wire_version = Some(21);
    match Boxed::new(alloc, reply) {
        Ok(reply) => Ok(Step {
            moment: 1,
            act: Act::Hello(address, 0, HelloResult::Ok(5, reply)),
        }),
        Err(_) => {
            drop(address);
            Err(DemoError::OutOfMemory)
        }
    }
}

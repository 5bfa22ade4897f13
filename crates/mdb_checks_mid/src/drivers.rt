//! Cases of mdb_topology: the calls of a driver as a library, and the phases of a handshake.

ghost use Rattle.mdb_log.specs.Acts.{IsDriverAct};
ghost use Rattle.mdb_topology.specs.Logging.{IsDriverOf};

use mdb_base::{
    ClusterTime, Error, ErrorKind, Items, Moment, ObjectId, OutOfMemory, ServerAddress, Text,
};
use mdb_cases::{Page, made_options, parted, tell_topology};
use mdb_events::Boxed;
use mdb_hello::HelloCommandResponse;
use mdb_log::{
    Act, ConnectionGeneration, Core, Established, HelloResult, Job, LoadBalancedGeneration, Log,
    PoolGeneration, PoolStamp, Reply, Step,
};
use mdb_topology::{HandshakePhase, TopologyCore};

/// A broken connection.
pub fn lost(page: &mut Page) -> Error {
    Error {
        kind: ErrorKind::Network,
        labels: Items::new(Vec::new(page.alloc)),
        topology_version: None,
        message: page.text("x"),
    }
}

/// One step; its reply is left.
pub fn take(page: &mut Page, core: &mut TopologyCore, log: &mut Log, moment: Moment, act: Act)
    requires stands { IsDriverOf core.old log.old }
    requires act { IsDriverAct act }
    ensures { IsDriverOf core.new log.new }
{
    let step = Step { moment, act };
    let told = Core::step(core, page.alloc, log, 0, &step);
    drop(step);
    if told.is_err() {
        page.fail();
    }
}

// The server answers.
fn greet(page: &mut Page, core: &mut TopologyCore, log: &mut Log)
    requires stands { IsDriverOf core.old log.old }
    ensures { IsDriverOf core.new log.new }
{
    let Some(address) = page.address("a:1") else {
        return;
    };
    match Boxed::new(page.alloc, HelloCommandResponse::default()) {
        Ok(reply) => {
            let came = HelloResult::Ok(5, reply);
            take(page, core, log, 1, Act::Hello(address, 0, came));
        }
        Err(_) => page.fail(),
    }
}

// The server answers, and party 1 asks for a connection.
fn ask(page: &mut Page, core: &mut TopologyCore, log: &mut Log)
    requires stands { IsDriverOf core.old log.old }
    ensures { IsDriverOf core.new log.new }
{
    let Some(address) = page.address("a:1") else {
        return;
    };
    greet(page, core, log);
    take(page, core, log, 2, Act::Request(1, address));
}

// Party 1 has the connection.
fn lend(page: &mut Page, core: &mut TopologyCore, log: &mut Log)
    requires stands { IsDriverOf core.old log.old }
    ensures { IsDriverOf core.new log.new }
{
    ask(page, core, log);
    let how = Established {
        wire: 21,
        service_id: None,
        server_id: None,
    };
    take(page, core, log, 3, Act::Established(0, 1, how));
}

fn tell_job(page: &mut Page, job: &Option<Job>) {
    match job {
        Some(job) => {
            page.show(&job.pool);
            page.put(".");
            page.show(&job.id);
            page.put(" ");
            page.show(&job.address);
            page.put_if(
                matches!(job.generation.generation, PoolGeneration::Normal(0)),
                " generation 0",
            );
        }
        None => page.put("none"),
    }
}

fn jobs(page: &mut Page, core: &mut TopologyCore, log: &mut Log)
    requires stands { IsDriverOf core.old log.old }
{
    ask(page, core, log);
    let job = core.job(page.alloc, 0, 1);
    match &job {
        Ok(job) => tell_job(page, job),
        Err(_) => page.fail(),
    }
    drop(job);
}

fn tell_reply(page: &mut Page, told: &Result<Reply, OutOfMemory>) {
    match told {
        Ok(reply) => page.debug(reply),
        Err(_) => page.fail(),
    }
}

// What the driver tells of itself.
fn tell(page: &mut Page, core: &TopologyCore) {
    let Some(address) = page.address("a:1") else {
        return;
    };
    page.put(" ");
    tell_topology(page, core.description());
    page.put(" published ");
    page.show(&core.published());
    page.put(" last ");
    page.show(&core.last_moment());
    page.put(" pool ");
    page.debug(&core.open_pool(&address));
    page.put(" asks ");
    page.show(&core.check_count());
    page.put_if(core.pool(0).is_some(), " has 0");
}

// An error of a monitor, and of an operation of party 1.
fn err(page: &mut Page, core: &mut TopologyCore, log: &mut Log, kind: &str, address: ServerAddress)
    requires stands { IsDriverOf core.old log.old }
{
    let error = lost(page);
    let told = if kind == "monitor-error" {
        core.handle_monitor_error(page.alloc, log, 0, 4, address, 0, error)
    } else {
        core.handle_application_error(page.alloc, log, 0, 4, 1, error)
    };
    tell_reply(page, &told);
    drop(told);
}

fn update(page: &mut Page, core: &mut TopologyCore, log: &mut Log)
    requires stands { IsDriverOf core.old log.old }
{
    let Some(address) = page.address("a:1") else {
        return;
    };
    let reply = HelloCommandResponse::default();
    let told = core.update(page.alloc, log, 0, 4, address, 0, 5, reply);
    tell_reply(page, &told);
    drop(told);
}

fn call(page: &mut Page, core: &mut TopologyCore, log: &mut Log, kind: &str)
    requires stands { IsDriverOf core.old log.old }
{
    let alloc = page.alloc;
    let told = match kind {
        "hosts" => core.sync_hosts(alloc, log, 0, 4, page.addresses("b:1")),
        "time" => core.advance_cluster_time(alloc, log, 0, 4, ClusterTime(7)),
        _ => core.stop(alloc, log, 0, 4),
    };
    tell_reply(page, &told);
    drop(told);
}

fn run(page: &mut Page, core: &mut TopologyCore, log: &mut Log, kind: &str)
    requires stands { IsDriverOf core.old log.old }
{
    match kind {
        "open" => page.put("opened"),
        "job" => jobs(page, core, log),
        "update" => update(page, core, log),
        "monitor-error" | "application-error" => {
            if let Some(address) = page.address("a:1") {
                lend(page, core, log);
                err(page, core, log, kind, address);
            }
        }
        _ => call(page, core, log, kind),
    }
}

/// `open`, `update`, `monitor-error`, `application-error`, `hosts`, `time`, `stop`, `job`: what a driver of one seed `a:1` answers to the call at 4, and what it tells of itself afterwards.
pub fn driver(page: &mut Page, given: &str) {
    let (kind, _) = parted(given);
    let options = made_options(page, "a:1");
    if options.check().is_some() {
        drop(options);
        return page.put("malformed");
    }
    let mut log = Log::new(page.alloc);
    match TopologyCore::open_seeds(page.alloc, &mut log, 0, options) {
        Ok(mut core) => {
            run(page, &mut core, &mut log, kind);
            tell(page, &core);
            drop(core);
        }
        Err(_) => page.fail(),
    }
    drop(log);
}

fn phase(given: &str) -> HandshakePhase {
    let service_id = ObjectId([1; 12]);
    let own = LoadBalancedGeneration {
        generation: 2,
        service_id,
    };
    match given {
        "pre" => HandshakePhase::PreHello {
            generation: PoolStamp {
                pool: 0,
                generation: PoolGeneration::Normal(0),
            },
        },
        "post" => HandshakePhase::PostHello {
            pool: 0,
            generation: ConnectionGeneration::from(own),
        },
        _ => HandshakePhase::AfterCompletion {
            pool: 0,
            generation: ConnectionGeneration::Normal(0),
            max_wire_version: 21,
        },
    }
}

/// `pre`, `post` or `after`: the service of the phase, whether it is before the end of the handshake, and the wire version.
pub fn handshake(page: &mut Page, given: &str) {
    let phase = phase(given);
    match phase.service_id() {
        Some(service) => page.show(&service),
        None => page.put("-"),
    }
    page.put(" ");
    page.answer(phase.is_before_completion());
    page.put(" ");
    page.debug(&phase.wire_version());
}

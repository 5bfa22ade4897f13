//! Cases of limits: a step that would take a generation past its limit, or by hosts that are named the servers or the pools, is refused for that, whatever memory there is for what it would have done.

ghost use Rattle.mdb_log.specs.Acts.{IsDriverAct};
ghost use Rattle.mdb_topology.specs.Logging.{IsDriverOf};

use crate::drivers::{lost, take};
use mdb_base::{Error, Items, ObjectId, Options, ServerAddress};
use mdb_cases::{Page, made_options, parted};
use mdb_events::Boxed;
use mdb_log::{Act, BeatenResult, Core, Established, FailedAt, HelloResult, Log, Step};
use mdb_topology::TopologyCore;

// The step at 4. Its entry needs no memory: the log has room for four, and copies of an act that was made share what they hold.
fn refuse(page: &mut Page, core: &mut TopologyCore, log: &mut Log, act: Act)
    requires stands { IsDriverOf core.old log.old }
    requires act { IsDriverAct act }
{
    let step = Step { moment: 4, act };
    let told = Core::step(core, page.alloc, log, 0, &step);
    drop(step);
    match &told {
        Ok(reply) => page.debug(reply),
        Err(_) => page.put("wanted memory"),
    }
    drop(told);
}

fn held_error(page: &mut Page) -> Option<Boxed<Error>> {
    let error = lost(page);
    match Boxed::new(page.alloc, error) {
        Ok(error) => Some(error),
        Err(_) => {
            page.fail();
            None
        }
    }
}

// A hello of the monitor failed.
fn spend_hello(page: &mut Page, core: &mut TopologyCore, log: &mut Log)
    requires stands { IsDriverOf core.old log.old }
{
    let Some(address) = page.address("a:1") else {
        return;
    };
    if let Some(error) = held_error(page) {
        let act = Act::Hello(address, 0, HelloResult::Err(error));
        refuse(page, core, log, act);
    }
}

// A check of the monitor failed.
fn spend_check(page: &mut Page, core: &mut TopologyCore, log: &mut Log)
    requires stands { IsDriverOf core.old log.old }
{
    let Some(begun) = page.address("a:1") else {
        return;
    };
    take(page, core, log, 1, Act::Beat(begun, 0));
    let Some(ended) = page.address("a:1") else {
        return;
    };
    if let Some(error) = held_error(page) {
        let act = Act::Beaten(ended, 0, 5, BeatenResult::Err(error));
        refuse(page, core, log, act);
    }
}

// Under load balancing, an operation on the connection of a service failed.
fn spend_operation(page: &mut Page, core: &mut TopologyCore, log: &mut Log)
    requires stands { IsDriverOf core.old log.old }
{
    let Some(address) = page.address("a:1") else {
        return;
    };
    take(page, core, log, 1, Act::Request(1, address));
    let how = Established {
        wire: 21,
        service_id: Some(ObjectId([1; 12])),
        server_id: None,
    };
    take(page, core, log, 2, Act::Established(0, 1, how));
    if let Some(error) = held_error(page) {
        refuse(page, core, log, Act::Error(1, error));
    }
}

// Under load balancing, a connection of a service failed to be established.
fn spend_failure(page: &mut Page, core: &mut TopologyCore, log: &mut Log)
    requires stands { IsDriverOf core.old log.old }
{
    let Some(address) = page.address("a:1") else {
        return;
    };
    take(page, core, log, 1, Act::Request(1, address));
    let at = FailedAt::Post(Some(ObjectId([1; 12])));
    if let Some(error) = held_error(page) {
        refuse(page, core, log, Act::Failed(0, 1, at, error));
    }
}

// So many hosts, of which `a:1` is not one.
fn hosts(page: &mut Page, count: u16) -> Vec<ServerAddress> {
    let mut hosts = Vec::new(page.alloc);
    for port in 0..count {
        if let Some(mut host) = page.address("b:1") {
            host.port = port;
            page.keep(&mut hosts, host);
        }
    }
    hosts
}

// So many hosts are named.
fn spend_hosts(page: &mut Page, core: &mut TopologyCore, log: &mut Log, count: u16)
    requires stands { IsDriverOf core.old log.old }
{
    let hosts = Items::new(hosts(page, count));
    refuse(page, core, log, Act::Hosts(hosts));
}

fn spend(page: &mut Page, core: &mut TopologyCore, log: &mut Log, kind: &str)
    requires stands { IsDriverOf core.old log.old }
{
    match kind {
        "servers" => spend_hosts(page, core, log, 129),
        "pools" => spend_hosts(page, core, log, 2),
        "hello" => spend_hello(page, core, log),
        "check" => spend_check(page, core, log),
        "operation" => spend_operation(page, core, log),
        _ => spend_failure(page, core, log),
    }
}

fn spent_options(page: &mut Page, kind: &str) -> Options {
    let mut options = made_options(page, "a:1");
    options.load_balanced = matches!(kind, "operation" | "failure");
    options.limit_generation = Some(0);
    options.limit_pool = Some(1);
    options
}

/// `hello`, `check`, `operation`, `failure`: what a driver of one seed `a:1` and `limit_generation=0` answers to an error that would clear its pool. `servers`, `pools`: what it answers to 129 hosts, and with `limit_pool=1` to two.
pub fn spent(page: &mut Page, given: &str) {
    let (kind, _) = parted(given);
    let options = spent_options(page, kind);
    if options.check().is_some() {
        drop(options);
        return page.put("malformed");
    }
    let mut log = Log::new(page.alloc);
    match TopologyCore::open_seeds(page.alloc, &mut log, 0, options) {
        Ok(mut core) => {
            spend(page, &mut core, &mut log, kind);
            drop(core);
        }
        Err(_) => page.fail(),
    }
    drop(log);
}

//! Cases of mdb_topology: how long a driver hands out a pool that was closed.

ghost use Rattle.mdb_topology.specs.Logging.{IsDriverOf};

use crate::driver_pools::lend;
use crate::drivers::take;
use mdb_base::{Items, Moment};
use mdb_cases::{Page, made_options, parted, small};
use mdb_log::{Act, Core, Log, Step, Use};
use mdb_topology::TopologyCore;

// Only this seed is a host from now on: the pool of the other one is closed.
fn keep_host(page: &mut Page, core: &mut TopologyCore, log: &mut Log, moment: Moment, seed: &str)
    requires stands { IsDriverOf core.old log.old }
    ensures { IsDriverOf core.new log.new }
{
    let Some(address) = page.address(seed) else {
        return;
    };
    let mut hosts = Vec::new(page.alloc);
    match hosts.push(address) {
        Ok(()) => take(page, core, log, moment, Act::Hosts(Items::new(hosts))),
        Err(_) => {
            drop(hosts);
            page.fail()
        }
    }
}

// Party 3, which has come back, asks once more, at the other server.
fn ask_again(page: &mut Page, core: &mut TopologyCore, log: &mut Log, moment: Moment)
    requires stands { IsDriverOf core.old log.old }
    ensures { IsDriverOf core.new log.new }
{
    let Some(address) = page.address("a:1") else {
        return;
    };
    let act = Act::Request(3, address);
    let step = Step { moment, act };
    let told = Core::step(core, page.alloc, log, 0, &step);
    drop(step);
    match told {
        Ok(reply) => {
            page.debug(&reply);
            page.put(" ");
        }
        Err(_) => page.fail(),
    }
}

fn follow(page: &mut Page, core: &mut TopologyCore, log: &mut Log, moment: Moment, what: &str)
    requires stands { IsDriverOf core.old log.old }
    ensures { IsDriverOf core.new log.new }
{
    match what {
        "close-0" => keep_host(page, core, log, moment, "b:1"),
        "close-1" => keep_host(page, core, log, moment, "a:1"),
        "return" => take(page, core, log, moment, Act::Return(1, Use::Ok)),
        "collect" => take(page, core, log, moment, Act::Collect(1)),
        "collect-2" => take(page, core, log, moment, Act::Collect(2)),
        "pin" => take(page, core, log, moment, Act::Pin(1)),
        "unpin" => take(page, core, log, moment, Act::Unpin(1, 1)),
        "again" => ask_again(page, core, log, moment),
        _ => page.put("malformed "),
    }
}

fn follow_all(page: &mut Page, core: &mut TopologyCore, log: &mut Log, pool: u32, steps: &str)
    requires stands { IsDriverOf core.old log.old }
{
    let mut rest = steps;
    for moment in 5..13 {
        let (what, more) = parted(rest);
        if what.is_empty() {
            return;
        }
        page.put_if(moment != 5, " ");
        follow(page, core, log, moment, what);
        page.answer(core.pool(pool).is_some());
        rest = more;
    }
}

/// `POOL STEP ..`: whether the pool is handed out after each of the steps, of a driver of the seeds `a:1` and `b:1`, both routers. Of pool 1, party 1 has connection 1 and
/// was not told so, and connection 2 came back from party 3; of pool 0, connection 1 is pending for party 2.
pub fn closed_pool(page: &mut Page, given: &str) {
    let (pool, steps) = parted(given);
    let options = made_options(page, "a:1,b:1");
    if options.check().is_some() {
        drop(options);
        return page.put("malformed");
    }
    let mut log = Log::new(page.alloc);
    match TopologyCore::open_seeds(page.alloc, &mut log, 0, options) {
        Ok(mut core) => {
            lend(page, &mut core, &mut log);
            follow_all(page, &mut core, &mut log, small(pool), steps);
            drop(core);
        }
        Err(_) => page.fail(),
    }
    drop(log);
}

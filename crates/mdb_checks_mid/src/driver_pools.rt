//! Cases of mdb_topology: what the pools of a driver tell of themselves.

ghost use Rattle.mdb_topology.specs.Logging.{IsDriverOf};

use crate::drivers::take;
use crate::pool_told;
use mdb_cases::{Page, made_options, parted, small};
use mdb_events::Boxed;
use mdb_hello::HelloCommandResponse;
use mdb_log::{Act, Established, HelloResult, Log, Use};
use mdb_topology::TopologyCore;

// A router answers at the seed of the pool.
fn greet(page: &mut Page, core: &mut TopologyCore, log: &mut Log, seed: &str, pool: u32)
    requires stands { IsDriverOf core.old log.old }
    ensures { IsDriverOf core.new log.new }
{
    let Some(address) = page.address(seed) else {
        return;
    };
    let mut reply = HelloCommandResponse::default();
    reply.msg = Some(page.text("isdbgrid"));
    match Boxed::new(page.alloc, reply) {
        Ok(reply) => {
            let came = HelloResult::Ok(5, reply);
            take(page, core, log, 1, Act::Hello(address, pool, came));
        }
        Err(_) => page.fail(),
    }
}

// The party asks at the seed.
fn ask(page: &mut Page, core: &mut TopologyCore, log: &mut Log, seed: &str, party: u32)
    requires stands { IsDriverOf core.old log.old }
    ensures { IsDriverOf core.new log.new }
{
    let Some(address) = page.address(seed) else {
        return;
    };
    take(page, core, log, 2, Act::Request(party, address));
}

// The connection of pool 1 is established.
fn establish(page: &mut Page, core: &mut TopologyCore, log: &mut Log, id: u32)
    requires stands { IsDriverOf core.old log.old }
    ensures { IsDriverOf core.new log.new }
{
    let how = Established {
        wire: 21,
        service_id: None,
        server_id: None,
    };
    take(page, core, log, 3, Act::Established(1, id, how));
}

/// Of pool 1, party 1 has connection 1, and party 3 gave connection 2 back; of pool 0, connection 1 is pending for party 2.
pub fn lend(page: &mut Page, core: &mut TopologyCore, log: &mut Log)
    requires stands { IsDriverOf core.old log.old }
    ensures { IsDriverOf core.new log.new }
{
    greet(page, core, log, "a:1", 0);
    greet(page, core, log, "b:1", 1);
    ask(page, core, log, "b:1", 1);
    ask(page, core, log, "a:1", 2);
    ask(page, core, log, "b:1", 3);
    establish(page, core, log, 1);
    establish(page, core, log, 2);
    take(page, core, log, 4, Act::Return(3, Use::Ok));
}

/// `POOL WHAT NUMBER ..`: what a pool tells of a party, of a connection or of itself, of a driver of the seeds `a:1` and `b:1`, both routers.
pub fn driver_pool(page: &mut Page, given: &str) {
    let (pool, words) = parted(given);
    let options = made_options(page, "a:1,b:1");
    if options.check().is_some() {
        drop(options);
        return page.put("malformed");
    }
    let mut log = Log::new(page.alloc);
    match TopologyCore::open_seeds(page.alloc, &mut log, 0, options) {
        Ok(mut core) => {
            lend(page, &mut core, &mut log);
            match core.pool(small(pool)) {
                Some(known) => pool_told::tell(page, known, words),
                None => page.put("none"),
            }
            drop(core);
        }
        Err(_) => page.fail(),
    }
    drop(log);
}

//! Cases of mdb_shared: two seats that step a driver in turn and meet, where a step that found no memory is made once more.

ghost use Rattle.std.specs.Prelude.{◌≡◌, IfSome};
ghost use Rattle.mdb_log.specs.Acts.{IsDriverAct};

use mdb_base::ObjectId;
use mdb_cases::{Page, made_options};
use mdb_log::{Act, Core, Established, Log, Reply, Step, Use};
use mdb_shared::{Seat, SharedDriver};
use mdb_topology::TopologyCore;
use std::sync::Wait;

fn request(page: &mut Page, moment: u64, party: u32) -> Option<Step>
    ensures { IfSome result (λ step. IsDriverAct step.act) }
{
    let address = page.address("a:1")?;
    Some(Step {
        moment,
        act: Act::Request(party, address),
    })
}

fn established() -> Step
    ensures { IsDriverAct result.act }
{
    Step {
        moment: 7,
        act: Act::Established(
            0,
            1,
            Established {
                wire: 21,
                service_id: Some(ObjectId([1, 2, 3, 4, 5, 6, 7, 8, 9, 10, 11, 12])),
                server_id: None,
            },
        ),
    }
}

fn returned() -> Step
    ensures { IsDriverAct result.act }
{
    Step {
        moment: 9,
        act: Act::Return(1, Use::Ok),
    }
}

// The step behind the opening by its number: a caller asks, its connection is established and comes back, the next caller asks.
fn step_of(page: &mut Page, number: u32) -> Option<Step>
    ensures { IfSome result (λ step. IsDriverAct step.act) }
{
    match number {
        0 => request(page, 5, 1),
        1 => Some(established()),
        2 => Some(returned()),
        _ => request(page, 10, 2),
    }
}

// What the step is answered.
fn try_once<C: Core, R: Wait>(
    rt: &R,
    page: &mut Page,
    driver: &SharedDriver<C>,
    seat: &mut Seat<C>,
    number: u32,
) -> Option<Reply>
    requires own { seat.old.driver ≡ driver.now.id }
    ensures own { seat.new.driver ≡ seat.old.driver }
{
    let Some(step) = step_of(page, number) else {
        return None;
    };
    match driver.step(rt, page.alloc, seat, step) {
        Ok(reply) => Some(reply),
        Err(_) => None,
    }
}

fn put_reply(page: &mut Page, reply: &Option<Reply>) {
    match reply {
        Some(reply) => page.debug(reply),
        None => page.fail(),
    }
    page.put("; ");
}

/// Tells what the step is answered, where it is tried once more if there was no memory.
pub fn ask<C: Core, R: Wait>(
    rt: &R,
    page: &mut Page,
    driver: &SharedDriver<C>,
    seat: &mut Seat<C>,
    number: u32,
)
    requires own { seat.old.driver ≡ driver.now.id }
    ensures own { seat.new.driver ≡ seat.old.driver }
{
    let reply = match try_once(rt, page, driver, seat, number) {
        Some(reply) => Some(reply),
        None => try_once(rt, page, driver, seat, number),
    };
    put_reply(page, &reply);
    drop(reply);
}

// The four steps, of which each seat makes every other one.
fn walk<C: Core, R: Wait>(
    rt: &R,
    page: &mut Page,
    driver: &SharedDriver<C>,
    one: &mut Seat<C>,
    other: &mut Seat<C>,
)
    requires own { (one.old.driver ≡ driver.now.id) × (other.old.driver ≡ driver.now.id) }
    ensures own { (one.new.driver ≡ one.old.driver) × (other.new.driver ≡ other.old.driver) }
{
    ask(rt, page, driver, one, 0);
    ask(rt, page, driver, other, 1);
    ask(rt, page, driver, one, 2);
    ask(rt, page, driver, other, 3);
}

// The number of entries of the log, where both seats close the driver.
fn put_closed<C: Core>(page: &mut Page, driver: SharedDriver<C>, one: Seat<C>, other: Seat<C>)
    requires own { (one.driver ≡ driver.id) × (other.driver ≡ driver.id) }
{
    let mut seats = Vec::new(page.alloc);
    if seats.push(one).is_err() || seats.push(other).is_err() {
        return page.fail();
    }
    match driver.close(seats) {
        Ok((_, log)) => page.show(&log.len()),
        Err(_) => page.put("not closed"),
    }
}

fn meet<C: Core, R: Wait>(
    rt: &R,
    page: &mut Page,
    driver: SharedDriver<C>,
    mut one: Seat<C>,
    mut other: Seat<C>,
)
    requires own { (one.driver ≡ driver.id) × (other.driver ≡ driver.id) }
{
    walk(rt, page, &driver, &mut one, &mut other);
    driver.meet(&mut one, &mut other);
    page.show(&driver.seen_count(&mut one));
    page.put(" ");
    page.show(&driver.seen_count(&mut other));
    page.put("; ");
    put_closed(page, driver, one, other);
}

fn share<C: Core, R: Wait>(rt: &R, page: &mut Page, core: C, log: Log)
    requires { C.stands core log }
{
    let Ok((driver, mut seats)) = SharedDriver::new(page.alloc, core, log, 2) else {
        return page.fail();
    };
    match (seats.pop(), seats.pop()) {
        (Some(other), Some(one)) => meet(rt, page, driver, one, other),
        _ => page.put("no seats"),
    }
}

/// `meeting a:1 balanced`: a driver with these options, two seats of which step it in turn, each step once more where there was no memory for it.
/// The answer is the reply of each step, how many entries each seat has seen when they have met, and how many the log has that they close.
pub fn meeting<R: Wait>(rt: &R, page: &mut Page, given: &str) {
    let options = made_options(page, given);
    if options.check().is_some() {
        drop(options);
        return page.put("malformed");
    }
    let mut log = Log::new(page.alloc);
    match TopologyCore::open_seeds(page.alloc, &mut log, 0, options) {
        Ok(core) => share(rt, page, core, log),
        Err(_) => page.fail(),
    }
}

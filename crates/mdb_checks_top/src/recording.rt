//! Cases of mdb_recorders: one seat steps a driver, and another takes its entries, which are written as text.

ghost use Rattle.std.specs.Prelude.{◌≡◌};
ghost use Rattle.mdb_recorders.specs.Recording.{Follows};

use crate::meeting::ask;
use crate::runs::put_lines;
use mdb_base::{MemSink, Sink};
use mdb_cases::{Page, made_options};
use mdb_log::{Core, Log};
use mdb_recorders::{LogWriter, Recorder};
use mdb_shared::{Seat, SharedDriver};
use mdb_topology::TopologyCore;
use std::sync::Wait;

// Takes what is new.
fn take<C: Core, R: Wait, K: Sink + Drop>(
    rt: &R,
    page: &mut Page,
    driver: &SharedDriver<C>,
    seat: &mut Seat<C>,
    recorder: &mut Recorder,
    writer: &mut LogWriter<K>,
)
    requires own { seat.old.driver ≡ driver.now.id }
    requires follows { Follows recorder.old seat.old.seen }
    ensures own { seat.new.driver ≡ seat.old.driver }
    ensures follows { Follows recorder.new seat.new.seen }
{
    let taken = recorder.record(driver, rt, page.alloc, seat, writer);
    let is_taken = taken.is_ok();
    drop(taken);
    if !is_taken {
        page.fail();
    }
}

// Four steps by the one, while the other takes the entries twice.
fn walk<C: Core, R: Wait, K: Sink + Drop>(
    rt: &R,
    page: &mut Page,
    driver: &SharedDriver<C>,
    one: &mut Seat<C>,
    other: &mut Seat<C>,
    writer: &mut LogWriter<K>,
)
    requires own { (one.old.driver ≡ driver.now.id) × (other.old.driver ≡ driver.now.id) }
{
    let mut recorder = Recorder::new(page.alloc, 0);
    ask(rt, page, driver, one, 0);
    ask(rt, page, driver, one, 1);
    take(rt, page, driver, other, &mut recorder, writer);
    ask(rt, page, driver, one, 2);
    ask(rt, page, driver, one, 3);
    take(rt, page, driver, other, &mut recorder, writer);
    page.show(&recorder.done());
    drop(recorder);
}

// The text of the entries.
fn write<C: Core, R: Wait>(
    rt: &R,
    page: &mut Page,
    driver: &SharedDriver<C>,
    one: &mut Seat<C>,
    other: &mut Seat<C>,
)
    requires own { (one.old.driver ≡ driver.now.id) × (other.old.driver ≡ driver.now.id) }
{
    let Ok(sink) = MemSink::new(page.alloc, 10_000, 100, Vec::new(page.alloc)) else {
        return page.fail();
    };
    let mut writer = LogWriter::new(page.alloc, sink);
    walk(rt, page, driver, one, other, &mut writer);
    put_lines(page, writer.sink.taken());
    drop(writer);
}

fn share<C: Core, R: Wait>(rt: &R, page: &mut Page, core: C, log: Log)
    requires { C.stands core log }
{
    let Ok((driver, mut seats)) = SharedDriver::new(page.alloc, core, log, 2) else {
        return page.fail();
    };
    match (seats.pop(), seats.pop()) {
        (Some(mut other), Some(mut one)) => write(rt, page, &driver, &mut one, &mut other),
        _ => page.put("no seats"),
    }
}

/// `recording a:1 balanced`: a driver with these options, which one seat steps while another takes its entries. The answer is the reply of each step, how many
/// entries were handed on, and the text that was written of them.
pub fn recording<R: Wait>(rt: &R, page: &mut Page, given: &str) {
    let options = made_options(page, given);
    if options.check().is_some() {
        drop(options);
        return page.put("malformed");
    }
    let mut log = Log::new(page.alloc);
    match TopologyCore::open_seeds(page.alloc, &mut log, 0, options) {
        Ok(core) => share(rt, page, core, log),
        Err(_) => page.fail(),
    }
}

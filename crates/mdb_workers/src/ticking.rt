//! The clock of a driver: time enters by its steps alone, and all other calls have the grain of its ticks.

ghost use Rattle.std.specs.Prelude.{◌≡◌, ◌∷◌, [], ⊤, map, IfOk, OnOk, OnErr};
ghost use Rattle.mdb_journal.specs.Entries.{HasStopped};
ghost use Rattle.mdb_log.specs.declared.log.Entry.{Entry};
ghost use Rattle.mdb_workers.specs.Making.{Made, MadeAt};
ghost use Rattle.mdb_shared.specs.Seats.{HasCore};
ghost use Rattle.mdb_workers.specs.Ticking.{BothDue, IsDueAct, KeptTime, Ticked, TickedInPart, TickedBy};

use crate::access::Access;
use crate::steps::{add, glance};
use mdb_base::{Moment, OutOfMemory, ServerAddress};
use mdb_describe::ServerDescription;
use mdb_journal::Journal;
use mdb_log::{Act, Core, Step};
use mdb_shared::{Look, Seat};
use std::alloc::Global;
use std::rt::Clock;
use std::sync::Wait;
use std::thread::sleep;
use std::time::{Duration, Instant};

// The addresses, copied.
fn addresses_in(
    alloc: Global,
    servers: &[ServerDescription],
) -> Result<Vec<ServerAddress>, OutOfMemory>
    ensures { IfOk result (λ v. v.items ≡ map (λ d. d.address) servers.now) }
{
    let mut addresses = Vec::new(alloc);
    for server in servers {
        addresses.push(server.address.clone()?)?;
    }
    Ok(addresses)
}

// The addresses of the servers that the driver knows.
#[derive(Clone, Copy)]
struct Addresses {
    alloc: Global,
}

impl<C: Core> Look<C> for Addresses {
    type Found = Result<Vec<ServerAddress>, OutOfMemory>;

    ghost use Rattle.std.specs.Prelude.{◌≡◌, IfOk};
    ghost use Rattle.mdb_workers.specs.Ticking.{addresses_of};

    ghost tells = { λ s log found. IfOk found (λ v. v.items ≡ addresses_of (C.described log)) };

    fn look(&self, core: &C, _log: &Journal) -> Result<Vec<ServerAddress>, OutOfMemory> {
        addresses_in(self.alloc, core.description().servers())
    }
}

// One step of the clock.
fn due<C: Core, R: Wait>(
    access: &Access<'_, C, R>,
    seat: &mut Seat<C>,
    moment: Moment,
    act: Act,
) -> Result<(), OutOfMemory>
    requires own { seat.old.driver ≡ access.now.driver.now.id }
    requires act { IsDueAct act }
    ensures ok { OnOk result ((e : Entry) × (e.step.act ≡ act) × MadeAt C.stands moment seat.old seat.new (e ∷ [])) }
    ensures err { OnErr result (Made C.stands seat.old seat.new []) }
{
    match add(access, seat, Step { moment, act }) {
        Ok(reply) => {
            drop(reply);
            Ok(())
        }
        Err(OutOfMemory) => Err(OutOfMemory),
    }
}

// What is due at the address.
fn due_at<C: Core, R: Wait>(
    access: &Access<'_, C, R>,
    seat: &mut Seat<C>,
    moment: Moment,
    address: ServerAddress,
) -> Result<(), OutOfMemory>
    requires own { seat.old.driver ≡ access.now.driver.now.id }
    ensures ok { OnOk result (BothDue C.stands moment address seat.old seat.new) }
    ensures err { OnErr result (TickedInPart C.stands moment seat.old seat.new) }
{
    let copy = address.clone()?;
    due(access, seat, moment, Act::Expire(copy))?;
    match due(access, seat, moment, Act::Maintain(address)) {
        Ok(()) => Ok(()),
        Err(OutOfMemory) => Err(OutOfMemory),
    }
}

// What is due at the addresses.
fn tick_at<C: Core, R: Wait>(
    access: &Access<'_, C, R>,
    seat: &mut Seat<C>,
    moment: Moment,
    addresses: Vec<ServerAddress>,
) -> Result<(), OutOfMemory>
    requires own { seat.old.driver ≡ access.now.driver.now.id }
    ensures ok { OnOk result (TickedBy C.stands moment addresses.items seat.old seat.new) }
    ensures err { OnErr result (TickedInPart C.stands moment seat.old seat.new) }
{
    for address in addresses {
        due_at(access, seat, moment, address)?;
    }
    Ok(())
}

/// One tick: at this moment, at each server that the driver knows, the callers that waited too long end (`max_wait`), and the pool is maintained: what is
/// stale or idle closes (`max_idle_time`), and the pool is filled up to its minimum. After `OutOfMemory` a part of it was done.
pub fn tick<C: Core, R: Wait>(
    access: &Access<'_, C, R>,
    seat: &mut Seat<C>,
    moment: Moment,
) -> Result<(), OutOfMemory>
    requires own { seat.old.driver ≡ access.now.driver.now.id }
    ensures ok { OnOk result (Ticked C.stands C.described moment seat.old seat.new) }
    ensures err { OnErr result (TickedInPart C.stands moment seat.old seat.new) }
{
    let addresses = glance(
        access,
        seat,
        &Addresses {
            alloc: access.alloc,
        },
    )?;
    match tick_at(access, seat, moment, addresses) {
        Ok(()) => Ok(()),
        Err(OutOfMemory) => Err(OutOfMemory),
    }
}

// Whether the driver was stopped.
#[derive(Clone, Copy)]
struct Ending;

impl<C: Core> Look<C> for Ending {
    type Found = bool;

    ghost use Rattle.std.specs.Prelude.{IsTrue};
    ghost use Rattle.mdb_journal.specs.Entries.{HasStopped};

    ghost tells = { λ s log found. IsTrue found → HasStopped log };

    fn look(&self, _core: &C, log: &Journal) -> bool {
        log.is_stopped()
    }
}

// The milliseconds since the start, 0 where the clock can't be read.
fn moment_since<R: Clock>(rt: &R, start: &Instant) -> Moment {
    match start.elapsed(rt) {
        Ok(passed) => {
            let millis = passed.as_secs().saturating_mul(1_000);
            millis.saturating_add(passed.subsec_millis() as u64)
        }
        Err(e) => {
            drop(e);
            0
        }
    }
}

/// Tells the moments at which the clock of a driver ticks.
pub trait Timer {
    ghost use Rattle.std.specs.Prelude.{ℕ};

    /// It may tell this moment.
    ghost tells: { Self → ℕ → Type 0 };

    /// The moment now.
    fn moment(&self) -> Moment
        ensures { tells self.now result };
}

// Tells the milliseconds since a start, 0 where the clock can't be read.
#[derive(Drop)]
struct Since<'a, R: Clock> {
    clock: &'a R,
    start: Instant,
}

impl<'a, R: Clock> Timer for Since<'a, R> {
    ghost use Rattle.std.specs.Prelude.{⊤};

    ghost tells = { λ s moment. ⊤ };

    fn moment(&self) -> Moment {
        moment_since(self.clock, &self.start)
    }
}

/// Ticks each so long until the driver stops, at the moments that the timer tells. A tick for which there is no memory is left to the next one. Nothing is
/// claimed of the time that passes.
pub fn keep_time_by<C: Core, R: Wait + Clock, T: Timer>(
    access: &Access<'_, C, R>,
    seat: &mut Seat<C>,
    timer: &T,
    every: Duration,
)
    requires own { seat.old.driver ≡ access.now.driver.now.id }
    ensures same { (seat.new.driver ≡ seat.old.driver) × (seat.new.number ≡ seat.old.number) }
    ensures ticked { KeptTime C.stands (T.tells timer.now) seat.old seat.new }
    ensures stopped { HasStopped seat.new.seen }
    ensures fits { HasCore C.stands seat.new }
{
    for _ in access.rt.forever() {
        if glance(access, seat, &Ending) {
            return;
        }
        drop(tick(access, seat, timer.moment()));
        sleep(access.rt, every);
    }
    unreachable!()
}

/// Ticks each so long until the driver stops; the moments are the milliseconds since the start. No clause says what a clock tells: with a `Timer` of one's own
/// `keep_time_by` says at which moments it ticks. A tick for which there is no memory is left to the next one. Nothing is claimed of the time that passes.
pub fn keep_time<C: Core, R: Wait + Clock>(
    access: &Access<'_, C, R>,
    seat: &mut Seat<C>,
    start: Instant,
    every: Duration,
)
    requires own { seat.old.driver ≡ access.now.driver.now.id }
    ensures same { (seat.new.driver ≡ seat.old.driver) × (seat.new.number ≡ seat.old.number) }
    ensures ticked { KeptTime C.stands (λ moment. ⊤) seat.old seat.new }
    ensures stopped { HasStopped seat.new.seen }
    ensures fits { HasCore C.stands seat.new }
{
    let since = Since {
        clock: access.rt,
        start,
    };
    keep_time_by(access, seat, &since, every)
}

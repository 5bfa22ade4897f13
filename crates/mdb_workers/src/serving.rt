//! A worker's whole life.

ghost use Rattle.std.specs.Prelude.{◌≡◌};
ghost use Rattle.mdb_journal.specs.Entries.{HasStopped};
ghost use Rattle.mdb_shared.specs.Seats.{HasCore};
ghost use Rattle.mdb_workers.specs.Working.{Served};

use crate::access::Access;
use crate::establishing::{Establisher, Gate};
use crate::listening::{Jobs, Woken, next_job};
use crate::persisting::tend;
use mdb_log::Core;
use mdb_shared::Seat;
use std::sync::Wait;

/// Establishes connections until the driver stops, and sleeps while there is none to establish. For each connection that it claims the establisher is called
/// once, and its answer is reported. Where there is no memory for that the connection is reported as failed.
pub fn serve<C: Core, R: Wait, E: Establisher, G: Gate>(
    access: &Access<'_, C, R>,
    seat: &mut Seat<C>,
    establisher: &mut E,
    gate: &mut G,
)
    requires own { seat.old.driver ≡ access.now.driver.now.id }
    ensures served { Served C.job_after C.stands seat.old seat.new (E.calls establisher.old) (E.calls establisher.new) }
    ensures stopped { HasStopped seat.new.seen }
    ensures fits { HasCore C.stands seat.new }
{
    let mut jobs = Jobs::new();
    for _ in access.rt.forever() {
        if next_job(access, seat, &mut jobs) == Woken::Stopped {
            return;
        }
        let _end = tend(access, seat, establisher, gate);
    }
    unreachable!()
}

//! Waiting until the log tells what one waits for. Who waits looks at the new entries only, in its turn, and adds none; between two looks it sleeps.

ghost use Rattle.std.specs.Prelude.{◌≡◌, []};
ghost use Rattle.mdb_shared.specs.Seats.{HasCore};
ghost use Rattle.mdb_workers.specs.Making.{Made};
ghost use Rattle.mdb_workers.specs.Hearing.{IsHeard, IsNewsOf};

use crate::access::Access;
use crate::steps::glance;
use mdb_events::{CmapEvent, Fact};
use mdb_journal::{Journal, Kept};
use mdb_log::{Act, Core, Entry, Reply};
use mdb_shared::{Look, Seat};
use std::sync::Wait;

/// What ended a wait.
#[derive(Clone, Copy, Debug, PartialEq, Eq)]
pub enum Woken {
    /// What was waited for has come: the number of all entries then.
    News(u64),
    /// The driver has stopped.
    Stopped,
}

// How many entries the log has, whether one of them is news, from this one on, and whether one stopped the driver.
#[derive(Clone, Copy)]
struct AnyNews {
    from: u64,
}

impl<C: Core> Look<C> for AnyNews {
    type Found = (u64, bool, bool);

    ghost use Rattle.std.specs.Prelude.{◌≡◌, IsTrue, length};
    ghost use Rattle.mdb_journal.specs.Entries.{HasNews, HasStopped};

    ghost tells = { λ s log found. (found.0 ≡ length log) × (IsTrue found.1 → HasNews s.from log) × (IsTrue found.2 → HasStopped log) };

    fn look(&self, _core: &C, log: &Journal) -> (u64, bool, bool) {
        (log.len(), log.has_news(self.from), log.is_stopped())
    }
}

/// Sleeps until an entry from this one on is news to others, and gives the number of all entries then; or until the driver has stopped and none of them is. What
/// is news says `is_news` of mdb_journal; a stop is. It adds no entry.
pub fn next_news<C: Core, R: Wait>(
    access: &Access<'_, C, R>,
    seat: &mut Seat<C>,
    from: u64,
) -> Woken
    requires own { seat.old.driver ≡ access.now.driver.now.id }
    ensures saw { Made C.stands seat.old seat.new [] }
    ensures heard { IsHeard seat.new.seen result }
    ensures news { IsNewsOf from seat.new.seen result }
    ensures fits { HasCore C.stands seat.new }
{
    let news = AnyNews { from };
    for _ in access.rt.forever() {
        let (count, is_there, is_over) = glance(access, seat, &news);
        if is_there {
            return Woken::News(count);
        }
        if is_over {
            return Woken::Stopped;
        }
        access.driver.sleep(access.rt, count);
    }
    unreachable!()
}

// How many connections the entry created.
fn created(entry: &Entry) -> u64 {
    let mut count = 0u64;
    for fact in entry.facts.as_slice() {
        if let Fact::Pool(_, CmapEvent::ConnectionCreated(_)) = fact {
            count = count.saturating_add(1);
        }
    }
    count
}

// How many connections nobody has claimed after the entry, where there were so many before it.
fn unclaimed_after(entry: &Entry, before: u64) -> u64 {
    let before = match (&entry.step.act, &entry.reply) {
        (Act::Claim, Reply::NoJob) => 0,
        (Act::Claim, Reply::Job(_, _)) => before.saturating_sub(1),
        _ => before,
    };
    before.saturating_add(created(entry))
}

// How many connections nobody has claimed after the entries from this one on. Where some of them were taken, it may be any number.
fn unclaimed_then(kept: Kept<'_>, from: u64, before: u64) -> u64 {
    if from < kept.from {
        return u64::MAX;
    }
    let mut unclaimed = before;
    for at in (from - kept.from) as usize..kept.entries.len() {
        unclaimed = unclaimed_after(&kept.entries[at], unclaimed);
    }
    unclaimed
}

/// How far a worker has followed the log, and how many connections nobody had claimed then. It is counted from the log, so a connection that was closed before it
/// was claimed counts until the next claim that finds none. So do all, where entries were taken before it looked at them.
#[derive(Clone, Copy, Debug)]
pub struct Jobs {
    from: u64,
    unclaimed: u64,
}

impl Jobs {
    /// Nothing of the log was followed yet.
    pub fn new() -> Jobs {
        Jobs {
            from: 0,
            unclaimed: 0,
        }
    }
}

impl<C: Core> Look<C> for Jobs {
    type Found = (u64, u64, bool);

    ghost use Rattle.std.specs.Prelude.{◌≡◌, IsTrue, length};
    ghost use Rattle.mdb_journal.specs.Entries.{HasStopped};

    ghost tells = { λ s log found. (found.0 ≡ length log) × (IsTrue found.2 → HasStopped log) };

    fn look(&self, _core: &C, log: &Journal) -> (u64, u64, bool) {
        (
            log.len(),
            unclaimed_then(log.kept(), self.from, self.unclaimed),
            log.is_stopped(),
        )
    }
}

/// Sleeps until a connection is to be established, or the driver has stopped. It adds no entry.
pub fn next_job<C: Core, R: Wait>(
    access: &Access<'_, C, R>,
    seat: &mut Seat<C>,
    jobs: &mut Jobs,
) -> Woken
    requires own { seat.old.driver ≡ access.now.driver.now.id }
    ensures saw { Made C.stands seat.old seat.new [] }
    ensures heard { IsHeard seat.new.seen result }
    ensures fits { HasCore C.stands seat.new }
{
    for _ in access.rt.forever() {
        let (count, unclaimed, is_over) = glance(access, seat, &*jobs);
        if is_over {
            return Woken::Stopped;
        }
        *jobs = Jobs {
            from: count,
            unclaimed,
        };
        if unclaimed > 0 {
            return Woken::News(count);
        }
        access.driver.sleep(access.rt, count);
    }
    unreachable!()
}

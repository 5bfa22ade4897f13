//! How the request of one who waits stands, by what the new entries of the log tell. It adds no entry.

ghost use Rattle.std.specs.Prelude.{◌≡◌, IsTrue, []};
ghost use Rattle.mdb_log.specs.declared.step.Act.TheVariants.{GiveUp};
ghost use Rattle.mdb_log.specs.declared.reply.Reply.TheVariants.{Done};
ghost use Rattle.mdb_workers.specs.Making.{Made};
ghost use Rattle.mdb_shared.specs.Seats.{HasCore};
ghost use Rattle.mdb_handles.specs.CheckingOut.{IsGivenUp};
ghost use Rattle.mdb_handles.specs.Standing.{MayBe, HasEnded};

use crate::limits::Limit;
use mdb_events::{CmapEvent, Fact};
use mdb_journal::{Journal, Kept};
use mdb_log::{Act, Core, Entry, Reply};
use mdb_shared::{Look, Seat};
use mdb_workers::{Access, glance};
use std::sync::Wait;

// How a request stands.
#[derive(Clone, Copy, Debug, PartialEq, Eq)]
pub(crate) enum State {
    Open,
    // A question will tell its outcome.
    Settled,
    // Some seat gave it up.
    GivenUp,
}

// A request, the number of entries that were looked at, and the connection that is being established for it, where one is known.
#[derive(Clone, Copy)]
pub(crate) struct Standing {
    pub request: u32,
    pub from: u64,
    pub at: Option<(u32, u32)>,
}

// How a request stands, and what is known of it then.
#[derive(Clone, Copy)]
pub(crate) struct Outlook {
    pub state: State,
    pub known: Standing,
}

fn gives_up(entry: &Entry, request: u32) -> bool
    ensures { IsTrue result → (entry.now.step.act ≡ GiveUp request) × (entry.now.reply ≡ Done) }
{
    match (&entry.step.act, &entry.reply) {
        (Act::GiveUp(party), Reply::Done) => *party == request,
        _ => false,
    }
}

fn creates(entry: &Entry, pool: u32, id: u32) -> bool {
    for fact in entry.facts.as_slice() {
        if let Fact::Pool(number, CmapEvent::ConnectionCreated(event)) = fact {
            if *number == pool && event.connection_id == id {
                return true;
            }
        }
    }
    false
}

// The connection that the fact grants to the request.
fn granted(fact: &Fact, request: u32) -> Option<(u32, u32)> {
    match fact {
        Fact::Granted(party, pool, id) if *party == request => Some((*pool, *id)),
        _ => None,
    }
}

fn ends(fact: &Fact, request: u32) -> bool {
    match fact {
        Fact::Ended(party, _) => *party == request,
        _ => false,
    }
}

// The connection is established or failed.
fn reports(entry: &Entry, at: Option<(u32, u32)>) -> bool {
    match &entry.step.act {
        Act::Established(pool, id, _) => at == Some((*pool, *id)),
        Act::Failed(pool, id, _, _) => at == Some((*pool, *id)),
        _ => false,
    }
}

// The entry settles the request: it ends it, it grants an available connection to it, or it reports the connection that is being established for it.
fn settles(entry: &Entry, request: u32, at: &mut Option<(u32, u32)>) -> bool {
    for fact in entry.facts.as_slice() {
        if ends(fact, request) {
            return true;
        }
        if let Some((pool, id)) = granted(fact, request) {
            if !creates(entry, pool, id) {
                return true;
            }
            *at = Some((pool, id));
        }
    }
    reports(entry, *at)
}

// Some seat gave the request up, by the entries from this one on that were not taken.
fn is_given_up(kept: Kept<'_>, from: u64, request: u32) -> bool
    ensures { IsTrue result → IsGivenUp request kept.entry.entries.now }
{
    for number in from.saturating_sub(kept.from) as usize..kept.entries.len() {
        if gives_up(&kept.entries[number], request) {
            return true;
        }
    }
    false
}

// By the entries from this one on: first whether one of them gives the request up, also where an earlier one settled it. Where some of them were taken, a
// question is to tell.
fn state_by(kept: Kept<'_>, from: u64, request: u32, at: &mut Option<(u32, u32)>) -> State
    ensures { MayBe request kept.entry.entries.now result }
{
    if is_given_up(kept, from, request) {
        return State::GivenUp;
    }
    if from < kept.from {
        return State::Settled;
    }
    for number in (from - kept.from) as usize..kept.entries.len() {
        if settles(&kept.entries[number], request, at) {
            return State::Settled;
        }
    }
    State::Open
}

impl<C: Core> Look<C> for Standing {
    type Found = Outlook;

    ghost use Rattle.mdb_handles.specs.Standing.{IsOutlook};

    ghost tells = { IsOutlook };

    fn look(&self, _core: &C, log: &Journal) -> Outlook {
        let mut at = self.at;
        let state = state_by(log.kept(), self.from, self.request, &mut at);
        Outlook {
            state,
            known: Standing {
                request: self.request,
                from: log.len(),
                at,
            },
        }
    }
}

// A request, and from which entry on one looks whether some seat gave it up.
#[derive(Clone, Copy)]
pub(crate) struct GiveUps {
    pub request: u32,
    pub from: u64,
}

impl<C: Core> Look<C> for GiveUps {
    type Found = bool;

    ghost use Rattle.std.specs.Prelude.{IsTrue};
    ghost use Rattle.mdb_handles.specs.CheckingOut.{IsGivenUp};

    ghost tells = { λ s log found. IsTrue found → IsGivenUp s.request log };

    fn look(&self, _core: &C, log: &Journal) -> bool {
        is_given_up(log.kept(), self.from, self.request)
    }
}

// Sleeps until the request isn't open any more, or the time is over.
pub(crate) fn await_outcome<C: Core, R: Wait, L: Limit>(
    access: &Access<'_, C, R>,
    seat: &mut Seat<C>,
    mut standing: Standing,
    limit: &L,
) -> Outlook
    requires own { seat.old.driver ≡ access.now.driver.now.id }
    ensures saw { Made C.stands seat.old seat.new [] }
    ensures outlook { MayBe standing.request seat.new.seen result.state }
    ensures ended { HasEnded (L.ends limit.now) result.state }
    ensures fits { HasCore C.stands seat.new }
{
    for _ in access.rt.forever() {
        let outlook = glance(access, seat, &standing);
        match outlook.state {
            State::Open => {}
            State::Settled => return outlook,
            State::GivenUp => return outlook,
        }
        match limit.left() {
            Some(left) => {
                standing = outlook.known;
                access.driver.sleep_for(access.rt, outlook.known.from, left);
            }
            None => return outlook,
        }
    }
    unreachable!()
}

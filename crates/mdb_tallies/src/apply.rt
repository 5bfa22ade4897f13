//! Each change of the tables.

ghost use Rattle.std.specs.Prelude.{◌≡◌, OnOk};
ghost use Rattle.mdb_tallies.specs.Kept.{Follows, Covers};
ghost use Rattle.mdb_tallies.specs.Reading.{of_event};

use crate::occurrence::Occurrence;
use crate::tables::Tables;
use mdb_base::OutOfMemory;
use mdb_events::CmapEvent;

/// What an event of the pool says.
pub fn of_event(pool: u32, event: &CmapEvent) -> Occurrence
    ensures { result ≡ of_event pool event.now }
{
    match event {
        CmapEvent::PoolCreated(_) => Occurrence::Began(pool),
        CmapEvent::PoolReady(_) => Occurrence::Turned(pool, true),
        CmapEvent::PoolClosed(_) => Occurrence::Turned(pool, false),
        CmapEvent::ConnectionCreated(e) => Occurrence::Created(pool, e.connection_id),
        CmapEvent::ConnectionClosed(e) => Occurrence::Closed(pool, e.connection_id),
        CmapEvent::ConnectionCheckedIn(e) => Occurrence::CheckedIn(pool, e.connection_id),
        _ => Occurrence::Nothing,
    }
}

impl Tables {
    /// The tables after a change; is_balanced tells whether pools are ready from the start.
    #[tactic(auto, using(crate::proofs::Placed::quiet_follows))]
    pub fn apply(&mut self, is_balanced: bool, change: Occurrence) -> Result<(), OutOfMemory>
        ensures { OnOk result (Covers self.old → Follows is_balanced change self.old self.new) }
    {
        match change {
            Occurrence::Nothing
            | Occurrence::GivenUp(_)
            | Occurrence::Pinned(_)
            | Occurrence::Replicated(_, _)
            | Occurrence::Unpinned(_, _) => Ok(()),
            Occurrence::Asked(party, pool, is_warm) => self.ask(party, pool, is_warm),
            Occurrence::Returned(party) => self.give_back(party),
            Occurrence::Taken(party, pool, id) => self.take(party, pool, id),
            Occurrence::Established(pool, id) => self.establish(pool, id),
            Occurrence::Failed(pool, id) => self.fail(pool, id),
            Occurrence::Opened(pool) => self.open(pool),
            Occurrence::Began(pool) => self.turn(pool, is_balanced),
            Occurrence::Turned(pool, is_ready) => self.turn(pool, is_ready),
            Occurrence::Created(pool, id) => self.create(pool, id),
            Occurrence::Closed(pool, id) => self.close(pool, id),
            Occurrence::CheckedIn(pool, id) => self.check_in(pool, id),
            Occurrence::Granted(party, pool, id) => self.grant(party, pool, id),
            Occurrence::Ended(party) => self.end(party),
        }
    }
}

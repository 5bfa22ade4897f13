//! The serving of a pool's queue.

ghost use Rattle.std.specs.Prelude.{◌≡◌, ◌++◌, OnOk, List, is_some, true, false};

use crate::kept::connection::Connection;
use crate::kept::draft::Draft;
use crate::kept::request::Request;
use mdb_base::{Moment, OutOfMemory};
use mdb_events::{End, Fact};
use std::alloc::Global;

impl Draft {
    ghost use Rattle.mdb_pool.specs.Kept.Values.{is_gone, request_at, connection_at};
    ghost use Rattle.mdb_pool.specs.Standing.{SameHome, Fits};
    ghost use Rattle.mdb_pool.specs.Acts.Doing.{SameNotes, Serves};
    ghost use Rattle.mdb_log.specs.History.{PoolItem};
    ghost use Rattle.mdb_pool.specs.Acts.Changes.{meeting, meeting_facts, warming, warming_facts};

    // A caller meets the available connection that came back last.
    fn meet(
        &mut self,
        alloc: Global,
        facts: &mut Vec<Fact>,
        moment: Moment,
        connection: Connection,
        request: Request,
    ) -> Result<(), OutOfMemory>
        requires there { is_gone self.old.kept.settled (request_at self.old request.number) ≡ false }
        requires lives { is_some (connection_at self.old connection.id) ≡ true }
        ensures core { OnOk result (self.new ≡ meeting self.old moment connection request) }
        ensures facts { OnOk result (facts.new.items ≡ facts.old.items ++ meeting_facts self.old moment connection request) }
        ensures inner { self.new.kept.inner ≡ self.old.kept.inner }
    {
        if let Some(reason) = self.perished(moment, connection) {
            self.discard(alloc, facts, connection, reason)
        } else {
            self.grant(alloc, facts, moment, connection, request)
        }
    }

    // A warm request gets a new connection, or ends as none is wanted.
    fn warm_up(
        &mut self,
        alloc: Global,
        facts: &mut Vec<Fact>,
        moment: Moment,
        request: Request,
    ) -> Result<(), OutOfMemory>
        requires there { is_gone self.old.kept.settled (request_at self.old request.number) ≡ false }
        ensures core { OnOk result (self.new ≡ warming self.old moment request) }
        ensures facts { OnOk result (facts.new.items ≡ facts.old.items ++ warming_facts self.old request) }
        ensures inner { self.new.kept.inner ≡ self.old.kept.inner }
    {
        if self.wants_connection() {
            self.create(alloc, facts, moment, request)
        } else {
            self.end_warm(alloc, facts, request, &End::Warmed)
        }
    }

    // Serves the queue until nothing more can be done.
    #[tactic(auto, using(crate::proofs::KeptInLittle::ConnectionsThatLive::last_lives))]
    pub(crate) fn serve(
        &mut self,
        alloc: Global,
        facts: &mut Vec<Fact>,
        moment: Moment,
    ) -> Result<(), OutOfMemory>
        ensures home { OnOk result (SameHome self.old self.new) }
        ensures last { OnOk result (self.new.kept.last ≡ self.old.kept.last) }
        ensures notes { OnOk result (SameNotes self.old self.new) }
        ensures serves { OnOk result ((xs : List PoolItem) → Fits self.old xs → Serves self.old self.new moment facts.old.items facts.new.items xs) }
        ensures inner { self.new.kept.inner ≡ self.old.kept.inner }
    {
        if !self.status().is_ready() {
            return Ok(());
        }
        while let Some(request) = self.candidate() {
            // No other request has the number.
            let _requests = self.asked();
            let request = request.copy()?;
            if request.warm {
                self.warm_up(alloc, facts, moment, request)?;
            } else if let Some(connection) = self.last_available() {
                self.meet(alloc, facts, moment, connection, request)?;
            } else if self.has_room() {
                self.create(alloc, facts, moment, request)?;
            } else {
                break;
            }
        }
        Ok(())
    }
}

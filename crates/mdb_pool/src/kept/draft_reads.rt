//! What a changed pool has among its connections and requests.

ghost use Rattle.std.specs.Prelude.{◌≡◌, count_by, is_some, true, option_copied, IfOk, false};

use crate::Reply;
use crate::kept::connection::Connection;
use crate::kept::draft::Draft;
use crate::kept::request::Request;
use mdb_base::{Moment, ObjectId, OutOfMemory};
use mdb_events::ConnectionClosedReason;
use mdb_slots::SlotTable;

impl Draft {
    ghost use Rattle.mdb_log.specs.Connections.{has};
    ghost use Rattle.mdb_slots.specs.Items.{records_of};
    ghost use Rattle.mdb_slots.specs.Keyed.{after_key, entry_before, last_of, rest_of};
    ghost use Rattle.mdb_slots.specs.Sided.{noted};
    ghost use Rattle.mdb_slots.specs.Slots.{listing};
    ghost use Rattle.mdb_pool.specs.Kept.Places.{is_available, is_queued};
    ghost use Rattle.mdb_pool.specs.Acts.Changes.{available_ones, pending_ones};
    ghost use Rattle.mdb_pool.specs.Kept.Values.{connection_at, pending_count, is_ended_at, request_at, outcome_now, wants_now, candidate_now, fills_now, first_perished, first_overdue, first_queued, last_available, has_room, given_in, held_given, held_connection, pending_connection, kept_holder, kept_requests, first_unclaimed, stale_for, perished_now, reason_now, timeouts_in};

    pub(crate) fn first_queued(&self) -> Option<&Request>
        ensures { option_copied result ≡ first_queued self.now }
    {
        self.body.first_queued()
    }

    pub(crate) fn last_available(&self) -> Option<Connection>
        ensures { result ≡ last_available self.now }
    {
        self.body.last_available()
    }

    pub(crate) fn wants_connection(&self) -> bool
        ensures { result ≡ wants_now self.now }
    {
        self.body.wants_connection()
    }

    pub(crate) fn has_room(&self) -> bool
        ensures { result ≡ has_room self.now }
    {
        self.body.has_room()
    }

    pub(crate) fn candidate(&self) -> Option<&Request>
        ensures { option_copied result ≡ candidate_now self.now }
    {
        self.body.candidate()
    }

    pub(crate) fn wants_filling(&self) -> bool
        ensures { result ≡ fills_now self.now }
    {
        self.body.wants_filling()
    }

    pub(crate) fn held_connection(&self, party: u32) -> Option<Connection>
        ensures { result ≡ held_connection self.now party }
    {
        self.body.held_connection(party).copied()
    }

    // The connection of the request, where a party holds it.
    pub(crate) fn held_for(&self, request: &Request) -> Option<Connection>
        ensures { result ≡ held_given self.now (given_in request.now.phase) }
    {
        self.body.held_for(request).copied()
    }

    pub(crate) fn pending_connection(&self, party: u32) -> Option<Connection>
        ensures { result ≡ pending_connection self.now party }
    {
        self.body.pending_connection(party)
    }

    pub(crate) fn holder_request(&self, connection: Connection) -> Option<&Request>
        ensures { option_copied result ≡ kept_holder self.now connection }
    {
        self.body.holder_request(connection)
    }

    pub(crate) fn first_unclaimed(&self) -> Option<Connection>
        ensures { result ≡ first_unclaimed self.now }
    {
        self.body.first_unclaimed()
    }

    pub(crate) fn first_overdue(&self, moment: Moment) -> Option<&Request>
        ensures { option_copied result ≡ first_overdue self.now moment }
    {
        self.body.first_overdue(moment)
    }

    pub(crate) fn first_perished(&self, moment: Moment) -> Option<Connection>
        ensures { result ≡ first_perished self.now moment }
    {
        self.body.first_perished(moment)
    }

    pub(crate) fn stale_for(&self, id: u32, service: Option<ObjectId>) -> bool
        requires { is_some (connection_at self.now id) ≡ true }
        ensures { result ≡ stale_for self.now id service }
    {
        self.body.stale_for(id, service)
    }

    pub(crate) fn perished(
        &self,
        moment: Moment,
        connection: Connection,
    ) -> Option<ConnectionClosedReason>
        requires { is_some (connection_at self.now connection.id) ≡ true }
        ensures { result ≡ perished_now self.now moment connection }
    {
        self.body.perished(moment, connection)
    }

    pub(crate) fn timeouts(&self) -> usize
        ensures { result ≡ timeouts_in self.now.kept.clears }
    {
        self.body.timeouts()
    }

    pub(crate) fn reason_now(&self, connection: Connection) -> Option<ConnectionClosedReason>
        requires { is_some (connection_at self.now connection.id) ≡ true }
        ensures { result ≡ reason_now self.now connection }
    {
        self.body.reason_now(connection)
    }

    // The available connections in their slots.
    pub(crate) fn available(&self) -> &SlotTable
        ensures { records_of (listing result.now).items ≡ noted (λ x. x.id) (λ x. x.service) (λ x. x.since) (λ x. is_available x.place) self.now.kept.connections }
    {
        self.body.connections.left_slots()
    }

    pub(crate) fn first_available(&self) -> Option<Connection>
        ensures { rest_of (λ x. x.id) result (available_ones self.now) ≡ available_ones self.now }
    {
        self.body.connections.first_left().copied()
    }

    // The one that follows it among the available connections.
    pub(crate) fn next_available(&self, id: u32) -> Option<Connection>
        ensures { rest_of (λ x. x.id) result (available_ones self.now) ≡ after_key (λ x. x.id) id (available_ones self.now) }
    {
        self.body.connections.next_left(id).copied()
    }

    pub(crate) fn pending_count(&self) -> usize
        ensures { result ≡ pending_count self.now }
    {
        self.body.pending_count()
    }

    pub(crate) fn first_pending(&self) -> Option<Connection>
        ensures { rest_of (λ x. x.id) result (pending_ones self.now) ≡ pending_ones self.now }
    {
        self.body.connections.first_right().copied()
    }

    // The one that follows it among the pending connections.
    pub(crate) fn next_pending(&self, id: u32) -> Option<Connection>
        ensures { rest_of (λ x. x.id) result (pending_ones self.now) ≡ after_key (λ x. x.id) id (pending_ones self.now) }
    {
        self.body.connections.next_right(id).copied()
    }

    // How many requests are queued.
    pub(crate) fn queued_count(&self) -> usize
        ensures { result ≡ count_by (λ q. is_queued q.phase) self.now.kept.requests }
    {
        self.body.requests.queued_count()
    }

    // The request that was put after all others, of those that have not left.
    pub(crate) fn last_request(&self) -> Option<&Request>
        ensures { option_copied result ≡ last_of (kept_requests self.now) }
    {
        self.body.requests.last()
    }

    // The one of them that precedes it.
    pub(crate) fn previous_request(&self, number: u32) -> Option<&Request>
        ensures { option_copied result ≡ entry_before (λ q. q.number) number (kept_requests self.now) }
    {
        self.body.requests.previous(number)
    }

    // The request ended in another way.
    pub(crate) fn is_ended(&self, request: u32) -> bool
        requires { has request self.now.kept.settled ≡ false }
        ensures { result ≡ is_ended_at (request_at self.now request) }
    {
        self.body.is_ended(request)
    }

    // What the request is told.
    pub(crate) fn outcome(&self, request: u32) -> Result<Reply, OutOfMemory>
        requires { has request self.now.kept.settled ≡ false }
        ensures { IfOk result (λ reply. reply ≡ outcome_now self.now request) }
    {
        self.body.outcome(request)
    }
}

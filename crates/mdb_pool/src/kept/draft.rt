//! A pool with changes that can be taken back.

ghost use Rattle.std.specs.Prelude.{◌≡◌, ◌+◌, ◌++◌, ◌∷◌, [], true, false, is_some, length, map, None, OnOk, option_copied, Some};
ghost use Rattle.mdb_log.specs.Connections.{has};
ghost use Rattle.mdb_slots.specs.Keyed.{others, put, swap};
ghost use Rattle.mdb_slots.specs.Lists.{apart};
ghost use Rattle.mdb_slots.specs.Sided.{stays};
ghost use Rattle.mdb_pool.specs.Kept.Keyed.{marked};
ghost use Rattle.mdb_pool.specs.Kept.Values.{connection_at, first_unclaimed, is_gone, kept_request, kept_requests, request_at, with_connections, with_requests};
ghost use Rattle.mdb_pool.specs.Kept.Places.{is_available, is_done, is_pending, is_queued};

use crate::PoolOptions;
use crate::kept::body::Body;
use crate::kept::connection::Connection;
use crate::kept::request::Request;
use crate::kept::status::Status;
use mdb_base::{Moment, ObjectId, OutOfMemory, ServerAddress};
use std::alloc::Global;
use std::marker::Model;

/// A pool with changes that can be taken back: each call keeps what it is read from, which is the pool as it was when it was last committed.
#[derive(Drop)]
pub struct Draft {
    pub(crate) body: Body,
}

impl Model for Draft {
    ghost use Rattle.mdb_pool.specs.Core.{PoolCore};
    ghost use Rattle.mdb_pool.specs.Kept.Body.{now_of};

    ghost Value = { PoolCore };

    ghost view = { λ d. now_of d.body };
}

impl Draft {
    pub(crate) fn number(&self) -> u32
        ensures { result ≡ self.now.pool }
    {
        self.body.pool
    }

    pub(crate) fn address(&self) -> &ServerAddress
        ensures { result.now ≡ self.now.address }
    {
        &self.body.address
    }

    pub(crate) fn options(&self) -> PoolOptions
        ensures { result ≡ self.now.options }
    {
        self.body.options
    }

    pub(crate) fn last(&self) -> Moment
        ensures { result ≡ self.now.kept.last }
    {
        *self.body.last.get()
    }

    pub(crate) fn created(&self) -> u32
        ensures { result ≡ self.now.kept.created }
    {
        self.body.connections.created()
    }

    pub(crate) fn status(&self) -> &Status
        ensures { result.now ≡ self.now.kept.status }
    {
        self.body.status.get()
    }

    // How many connections live.
    pub(crate) fn live(&self) -> usize
        ensures { result ≡ length self.now.kept.connections }
    {
        self.body.connections.len()
    }

    // How many requests have not left.
    pub(crate) fn asked(&self) -> usize
        ensures value { result ≡ length (kept_requests self.now) }
        ensures apart { apart (map (λ q. q.number) self.now.kept.requests) ≡ true }
    {
        self.body.requests.len()
    }

    pub(crate) fn connection(&self, id: u32) -> Option<&Connection>
        ensures { option_copied result ≡ connection_at self.now id }
    {
        self.body.connections.get(id)
    }

    // The request, where it has not left.
    pub(crate) fn request(&self, number: u32) -> Option<&Request>
        ensures { option_copied result ≡ kept_request self.now number }
    {
        self.body.requests.get(number)
    }

    pub(crate) fn set_last(&mut self, moment: Moment)
        ensures core { self.new ≡ record self.old { kept = record self.old.kept { last = moment } } }
        ensures inner { self.new.kept.inner ≡ self.old.kept.inner }
    {
        self.body.last.set(moment);
    }

    pub(crate) fn set_status(&mut self, status: Status)
        ensures core { self.new ≡ record self.old { kept = record self.old.kept { status = status } } }
        ensures inner { self.new.kept.inner ≡ self.old.kept.inner }
    {
        self.body.status.set(status);
    }

    // The pool, or a service of it, is cleared once more.
    pub(crate) fn push_clear(
        &mut self,
        alloc: Global,
        service: Option<ObjectId>,
        timeout: bool,
    ) -> Result<(), OutOfMemory>
        ensures core { OnOk result (self.new ≡ record self.old { kept = record self.old.kept { clears = self.old.kept.clears ++ record { service = service; after = self.old.kept.created; timeout = timeout } ∷ [] } }) }
        ensures inner { self.new.kept.inner ≡ self.old.kept.inner }
    {
        self.body.connections.clear(alloc, service, timeout)
    }

    // The request of this number, which came, is settled.
    pub(crate) fn settle(&mut self, alloc: Global, number: u32) -> Result<(), OutOfMemory>
        requires { is_some (request_at self.old number) ≡ true }
        ensures core { OnOk result (self.new ≡ record self.old { kept = record self.old.kept { settled = marked number self.old.kept.settled } }) }
        ensures inner { self.new.kept.inner ≡ self.old.kept.inner }
    {
        self.body.requests.note(alloc, number)
    }

    // A claim is told of the connection, which came first among the pending ones that no claim was told of.
    pub(crate) fn claim(&mut self, connection: &Connection)
        requires { first_unclaimed self.old ≡ Some connection.now }
        ensures core { self.new ≡ record self.old { kept = record self.old.kept { claimed = marked connection.now.id self.old.kept.claimed } } }
        ensures inner { self.new.kept.inner ≡ self.old.kept.inner }
    {
        self.body.connections.claim(connection);
    }

    // The connection, which is the next one that is created and pending, comes last.
    pub(crate) fn create_connection(
        &mut self,
        alloc: Global,
        connection: Connection,
    ) -> Result<(), OutOfMemory>
        requires id { connection.id ≡ self.old.kept.created + 1 }
        requires pending { is_pending connection.place ≡ true }
        ensures core { OnOk result (self.new ≡ record self.old { kept = record self.old.kept { created = connection.id; connections = put (λ x. x.id) connection self.old.kept.connections } }) }
        ensures inner { self.new.kept.inner ≡ self.old.kept.inner }
    {
        self.body.connections.create(alloc, connection)
    }

    // The connection, which lives and is not pending, comes last.
    pub(crate) fn put_connection(
        &mut self,
        alloc: Global,
        connection: Connection,
    ) -> Result<(), OutOfMemory>
        requires pending { is_pending connection.place ≡ false }
        requires lives { is_some (connection_at self.old connection.id) ≡ true }
        ensures core { OnOk result (self.new ≡ with_connections self.old (put (λ x. x.id) connection self.old.kept.connections)) }
        ensures inner { self.new.kept.inner ≡ self.old.kept.inner }
    {
        self.body.connections.put(alloc, connection)
    }

    // The connection takes the place of the one that had its number.
    pub(crate) fn replace_connection(
        &mut self,
        alloc: Global,
        connection: Connection,
    ) -> Result<(), OutOfMemory>
        requires available { stays (λ x. is_available x.place) connection (connection_at self.old connection.id) ≡ true }
        requires pending { stays (λ x. is_pending x.place) connection (connection_at self.old connection.id) ≡ true }
        ensures core { OnOk result (self.new ≡ with_connections self.old (swap (λ x. x.id) connection self.old.kept.connections)) }
        ensures inner { self.new.kept.inner ≡ self.old.kept.inner }
    {
        self.body.connections.replace(alloc, connection)
    }

    pub(crate) fn remove_connection(&mut self, alloc: Global, id: u32) -> Result<(), OutOfMemory>
        ensures core { OnOk result (self.new ≡ with_connections self.old (others (λ x. x.id) id self.old.kept.connections)) }
        ensures inner { self.new.kept.inner ≡ self.old.kept.inner }
    {
        self.body.connections.remove(alloc, id)
    }

    // The request, which is new and open, comes last.
    pub(crate) fn put_request(&mut self, alloc: Global, request: Request) -> Result<(), OutOfMemory>
        requires fresh { request_at self.old request.number ≡ None }
        requires open { is_done request.phase ≡ false }
        ensures core { OnOk result (self.new ≡ with_requests self.old (put (λ q. q.number) request self.old.kept.requests)) }
        ensures unsettled { OnOk result (has request.number self.new.kept.settled ≡ false) }
        ensures inner { self.new.kept.inner ≡ self.old.kept.inner }
    {
        self.body.requests.put(alloc, request)
    }

    // The request, which is not queued and has not left, takes the place of the one that had its number.
    pub(crate) fn replace_request(
        &mut self,
        alloc: Global,
        request: Request,
    ) -> Result<(), OutOfMemory>
        requires there { is_gone self.old.kept.settled (request_at self.old request.number) ≡ false }
        requires unqueued { is_queued request.phase ≡ false }
        ensures core { OnOk result (self.new ≡ with_requests self.old (swap (λ q. q.number) request self.old.kept.requests)) }
        ensures inner { self.new.kept.inner ≡ self.old.kept.inner }
    {
        self.body.requests.replace(alloc, request)
    }
}

//! The requests of a pool, with changes that can be taken back. Those that left take no memory but a number, where the pool stands alone.

ghost use Rattle.std.specs.Prelude.{◌≡◌, ◌&&◌, ◌||◌, [], true, false, not, is_some, filter, find, map, length, count_by, None, OnOk, option_copied};
ghost use Rattle.mdb_log.specs.Connections.{has};
ghost use Rattle.mdb_slots.specs.Keyed.{after_key, entry_before, last_of, put, rest_of, swap};
ghost use Rattle.mdb_slots.specs.Lists.{apart};
ghost use Rattle.mdb_pool.specs.Kept.Asking.{asked_after, asked_room_after, AskedFits};
ghost use Rattle.mdb_pool.specs.Kept.Keyed.{marked};
ghost use Rattle.mdb_pool.specs.Kept.Values.{if_lingers, is_asked_at, is_gone, lingers, request_in};
ghost use Rattle.mdb_pool.specs.Kept.Places.{is_done, is_queued};

use crate::kept::request::Request;
use crate::kept::request_parts::{RequestParts, SameNumbers, SameRequests};
use mdb_base::OutOfMemory;
use mdb_past::Past;
use mdb_slots::{NumberSet, NumberSetRedo, Sides, SidesRedo, Table, TableRedo};
use std::alloc::Global;
use std::marker::Model;

/// All requests that ever came, and those of them that are settled. Memory has those that have not left.
#[derive(Drop)]
pub struct Requests {
    parts: RequestParts,
}

impl Model for Requests {
    ghost use Rattle.mdb_pool.specs.Kept.Asking.{asked_base, asked_room, BaseFits, OpenRequests, PartsFit};

    ghost Value = { OpenRequests };

    ghost view = { λ r. record { now = r.parts.all.value; settled = r.parts.settled.value; base = asked_base r.parts; capacity = asked_room r.parts } };

    ghost invariant = { λ r. PartsFit r.parts × BaseFits (asked_base r.parts) };
}

/// Changes that were taken back, to be made again.
#[derive(Drop)]
pub struct RequestsRedo {
    kept: SidesRedo<Request>,
    told: TableRedo<u32>,
    known: NumberSetRedo,
    all: Past<Request>,
    settled: Past<u32>,
}

impl Model for RequestsRedo {
    ghost use Rattle.mdb_pool.specs.Kept.Asking.{AskedSteps};

    ghost Value = { AskedSteps };

    ghost view = { λ t. record { all = t.all.value; settled = t.settled.value; kept = t.kept; told = t.told; known = t.known } };
}

impl Requests {
    /// None came, to a pool that stands alone, or to one of a driver.
    pub(crate) fn new(alloc: Global, alone: bool) -> Requests
        ensures alone { result.base.alone ≡ alone }
        ensures now { (result.now ≡ []) × (result.settled ≡ []) }
        ensures base { (result.base.all ≡ []) × (result.base.settled ≡ []) }
    {
        Requests {
            parts: RequestParts {
                alone,
                kept: Sides::new(alloc),
                told: Table::new(alloc),
                known: NumberSet::new(alloc),
                all: Past::none(),
                all_base: Past::none(),
                settled: Past::none(),
                settled_base: Past::none(),
            },
        }
    }

    /// The pool stands alone.
    pub(crate) fn is_alone(&self) -> bool
        ensures { result ≡ self.now.base.alone }
    {
        self.parts.alone
    }

    /// How many have not left.
    pub(crate) fn len(&self) -> usize
        ensures value { result ≡ length (filter (lingers self.now.settled) self.now.now) }
        ensures apart { apart (map (λ q. q.number) self.now.now) ≡ true }
    {
        self.parts.kept.len()
    }

    /// The one that has the number, where it has not left.
    pub(crate) fn get(&self, number: u32) -> Option<&Request>
        ensures { option_copied result ≡ if_lingers self.now.settled (request_in self.now.now number) }
    {
        self.parts.kept.get(number)
    }

    /// A request of this number came. It can be told where the pool stands alone, and where none came.
    pub(crate) fn knows(&self, number: u32) -> bool
        requires { (self.now.base.alone || not (is_some (request_in self.now.now number))) ≡ true }
        ensures { result ≡ is_some (request_in self.now.now number) }
    {
        let alone = self.parts.alone;
        if !alone {
            return false;
        }
        self.parts.known.contains(number)
    }

    /// It asked, and is not settled.
    pub(crate) fn is_open(&self, number: u32) -> bool
        ensures { result ≡ (is_asked_at (request_in self.now.now number) && not (has number self.now.settled)) }
    {
        let told = self.parts.is_told(number);
        match self.parts.kept.get(number) {
            Some(request) => !request.took && !told,
            None => false,
        }
    }

    /// The first queued one.
    pub(crate) fn first_right(&self) -> Option<&Request>
        ensures value { option_copied result ≡ find (λ q. is_queued q.phase) self.now.now }
        ensures rest { rest_of (λ q. q.number) (option_copied result) (filter (λ q. is_queued q.phase) self.now.now) ≡ filter (λ q. is_queued q.phase) self.now.now }
    {
        self.parts.kept.first_right()
    }

    /// The queued one that follows it.
    pub(crate) fn next_right(&self, number: u32) -> Option<&Request>
        ensures { rest_of (λ q. q.number) (option_copied result) (filter (λ q. is_queued q.phase) self.now.now) ≡ after_key (λ q. q.number) number (filter (λ q. is_queued q.phase) self.now.now) }
    {
        self.parts.kept.next_right(number)
    }

    /// How many are queued.
    pub(crate) fn queued_count(&self) -> usize
        ensures { result ≡ count_by (λ q. is_queued q.phase) self.now.now }
    {
        self.parts.kept.right().len()
    }

    /// How many of these are warm.
    pub(crate) fn warm_count(&self) -> usize
        ensures { result ≡ count_by (λ q. is_queued q.phase && q.warm) self.now.now }
    {
        self.parts.kept.left().len()
    }

    /// The last one of those that have not left.
    pub(crate) fn last(&self) -> Option<&Request>
        ensures { option_copied result ≡ last_of (filter (lingers self.now.settled) self.now.now) }
    {
        self.parts.kept.last()
    }

    /// The one of them that precedes it.
    pub(crate) fn previous(&self, number: u32) -> Option<&Request>
        ensures { option_copied result ≡ entry_before (λ q. q.number) number (filter (lingers self.now.settled) self.now.now) }
    {
        self.parts.kept.previous(number)
    }

    /// A new request comes last. Where there is no memory all changes go.
    pub(crate) fn put(&mut self, alloc: Global, request: Request) -> Result<(), OutOfMemory>
        requires fresh { request_in self.old.now request.number ≡ None }
        requires open { is_done request.phase ≡ false }
        ensures now { OnOk result (self.new.now ≡ put (λ q. q.number) request self.old.now) }
        ensures settled { OnOk result ((self.new.settled ≡ self.old.settled) × (has request.number self.new.settled ≡ false)) }
        ensures base { self.new.base ≡ self.old.base }
        ensures capacity { self.new.capacity ≡ self.old.capacity }
    {
        match self.parts.put(alloc, request) {
            Ok(()) => Ok(()),
            Err(e) => {
                self.parts.roll_back(alloc);
                Err(e)
            }
        }
    }

    /// The request, which has not left and is not queued, takes the place of the one that had its number. Where there is no memory all changes go.
    pub(crate) fn replace(&mut self, alloc: Global, request: Request) -> Result<(), OutOfMemory>
        requires there { is_gone self.old.settled (request_in self.old.now request.number) ≡ false }
        requires unqueued { is_queued request.phase ≡ false }
        ensures now { OnOk result (self.new.now ≡ swap (λ q. q.number) request self.old.now) }
        ensures settled { OnOk result (self.new.settled ≡ self.old.settled) }
        ensures base { self.new.base ≡ self.old.base }
        ensures capacity { self.new.capacity ≡ self.old.capacity }
    {
        match self.parts.replace(alloc, request) {
            Ok(()) => Ok(()),
            Err(e) => {
                self.parts.roll_back(alloc);
                Err(e)
            }
        }
    }

    /// The request of this number, which came, is settled. Where there is no memory all changes go.
    pub(crate) fn note(&mut self, alloc: Global, number: u32) -> Result<(), OutOfMemory>
        requires { is_some (request_in self.old.now number) ≡ true }
        ensures now { OnOk result (self.new.now ≡ self.old.now) }
        ensures settled { OnOk result (self.new.settled ≡ marked number self.old.settled) }
        ensures base { self.new.base ≡ self.old.base }
        ensures capacity { self.new.capacity ≡ self.old.capacity }
    {
        match self.parts.settle(alloc, number) {
            Ok(()) => Ok(()),
            Err(e) => {
                self.parts.roll_back(alloc);
                Err(e)
            }
        }
    }

    /// The changes go, and what comes back makes them again. It takes no memory.
    pub(crate) fn undo(&mut self, alloc: Global) -> RequestsRedo
        ensures now { (self.new.now ≡ self.old.base.all) × (self.new.settled ≡ self.old.base.settled) }
        ensures base { self.new.base ≡ self.old.base }
        ensures capacity { self.new.capacity ≡ self.old.capacity }
        ensures onto { (result.all ≡ self.old.now) × (result.settled ≡ self.old.settled) }
        ensures fits { AskedFits result self.new.base self.new.capacity }
    {
        let all = Past::of::<Past<Request>, SameRequests>(&self.parts.all);
        let settled = Past::of::<Past<u32>, SameNumbers>(&self.parts.settled);
        let redo = RequestsRedo {
            kept: self.parts.kept.undo(alloc),
            told: self.parts.told.undo(alloc),
            known: self.parts.known.undo(alloc),
            all,
            settled,
        };
        self.parts.all = Past::of::<Past<Request>, SameRequests>(&self.parts.all_base);
        self.parts.settled = Past::of::<Past<u32>, SameNumbers>(&self.parts.settled_base);
        redo
    }

    /// Whatever was changed goes, and the changes are made again and stay. It takes no memory.
    pub(crate) fn redo(&mut self, redo: RequestsRedo)
        requires { AskedFits redo self.old.base self.old.capacity }
        ensures base { self.new.base ≡ asked_after redo self.old.base }
        ensures now { (self.new.now ≡ self.new.base.all) × (self.new.settled ≡ self.new.base.settled) }
        ensures capacity { self.new.capacity ≡ asked_room_after redo self.old.capacity }
    {
        let RequestsRedo {
            kept,
            told,
            known,
            all,
            settled,
        } = redo;
        self.parts.kept.redo(kept);
        self.parts.told.redo(told);
        self.parts.known.redo(known);
        self.parts.all_base = Past::of::<Past<Request>, SameRequests>(&all);
        self.parts.settled_base = Past::of::<Past<u32>, SameNumbers>(&settled);
        self.parts.all = all;
        self.parts.settled = settled;
    }

    /// The changes stay. It takes no memory.
    pub(crate) fn commit(&mut self)
        ensures now { (self.new.now ≡ self.old.now) × (self.new.settled ≡ self.old.settled) }
        ensures base { (self.new.base.all ≡ self.old.now) × (self.new.base.settled ≡ self.old.settled) }
        ensures alone { self.new.base.alone ≡ self.old.base.alone }
    {
        self.parts.kept.commit();
        self.parts.told.commit();
        self.parts.known.commit();
        self.parts.all_base = Past::of::<Past<Request>, SameRequests>(&self.parts.all);
        self.parts.settled_base = Past::of::<Past<u32>, SameNumbers>(&self.parts.settled);
    }
}

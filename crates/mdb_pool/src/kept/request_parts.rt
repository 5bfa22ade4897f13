//! The parts of a pool's requests, changed together.

ghost use Rattle.std.specs.Prelude.{◌≡◌, ◌++◌, ◌∷◌, [], true, false, not, is_some, None, OnOk};
ghost use Rattle.mdb_log.specs.Connections.{has};
ghost use Rattle.mdb_slots.specs.Keyed.{put, swap};
ghost use Rattle.mdb_slots.specs.Lists.{has as among};
ghost use Rattle.mdb_slots.specs.NumberSet.{numbers_kept};
ghost use Rattle.mdb_slots.specs.Table.{items};
ghost use Rattle.mdb_pool.specs.Kept.Asking.{asked_base, asked_room, PartsFit};
ghost use Rattle.mdb_pool.specs.Kept.Keyed.{marked};
ghost use Rattle.mdb_pool.specs.Kept.Values.{is_gone, lingers, request_in};
ghost use Rattle.mdb_pool.specs.Kept.Places.{is_done, is_queued};

use crate::kept::request::Request;
use mdb_base::OutOfMemory;
use mdb_past::{Past, Tells};
use mdb_slots::{NumberSet, Sides, Table};
use std::alloc::Global;

/// The requests that have not left, the numbers of those of them that are settled, and all numbers that ever asked, where the pool stands alone. Contracts see
/// all requests, and all that are settled.
#[derive(Drop)]
pub struct RequestParts {
    // The pool stands alone.
    pub alone: bool,
    pub kept: Sides<Request>,
    pub told: Table<u32>,
    pub known: NumberSet,
    // All of them, and those that there were when they were last committed.
    pub all: Past<Request>,
    pub all_base: Past<Request>,
    pub settled: Past<u32>,
    pub settled_base: Past<u32>,
}

/// What is told is the list of requests that is given.
pub struct SameRequests;

impl Tells<Past<Request>, Request> for SameRequests {
    ghost told = { λ p. p.value };
}

/// What is told is the list of numbers that is given.
pub struct SameNumbers;

impl Tells<Past<u32>, u32> for SameNumbers {
    ghost told = { λ p. p.value };
}

// A request comes last.
struct Put;

impl<'a> Tells<(&'a Past<Request>, &'a Request), Request> for Put {
    ghost use Rattle.mdb_slots.specs.Keyed.{put};

    ghost told = { λ x. put (λ q. q.number) x.1.now x.0.now.value };
}

// A request takes the place of the one that had its number.
struct Swapped;

impl<'a> Tells<(&'a Past<Request>, &'a Request), Request> for Swapped {
    ghost use Rattle.mdb_slots.specs.Keyed.{swap};

    ghost told = { λ x. swap (λ q. q.number) x.1.now x.0.now.value };
}

// A number is noted.
struct Noted;

impl<'a> Tells<(&'a Past<u32>, &'a u32), u32> for Noted {
    ghost use Rattle.mdb_pool.specs.Kept.Keyed.{marked};

    ghost told = { λ x. marked x.1.now x.0.now.value };
}

// The number of a new request is kept, where the pool stands alone.
fn note_party(known: &mut NumberSet, alone: bool, number: u32) -> Result<(), OutOfMemory>
    requires { alone ≡ true → among number known.old.now ≡ false }
    ensures known { OnOk result (alone ≡ true → known.new.now ≡ known.old.now ++ number ∷ []) }
    ensures base { known.new.base ≡ known.old.base }
    ensures capacity { known.new.capacity ≡ known.old.capacity }
{
    if !alone {
        return Ok(());
    }
    known.insert(number)?;
    Ok(())
}

impl RequestParts {
    // The request is settled, where it has not left.
    pub(crate) fn is_told(&self, number: u32) -> bool
        requires { PartsFit self.now }
        ensures { is_gone self.now.settled.value (request_in self.now.all.value number) ≡ false → result ≡ has number self.now.settled.value }
    {
        match self.told.get(number) {
            Some(_) => true,
            None => false,
        }
    }

    // The request, which has not left, leaves: it is settled, and is over or has ended.
    fn leaves(&self, request: &Request) -> bool
        requires { PartsFit self.now }
        ensures { is_gone self.now.settled.value (request_in self.now.all.value request.now.number) ≡ false → result ≡ not (lingers self.now.settled.value request.now) }
    {
        let told = self.is_told(request.number);
        let done = request.is_done();
        told && done
    }

    /// The request, which is new, comes last.
    pub(crate) fn put(&mut self, alloc: Global, request: Request) -> Result<(), OutOfMemory>
        requires fits { PartsFit self.old }
        requires fresh { request_in self.old.all.value request.number ≡ None }
        requires open { is_done request.phase ≡ false }
        ensures all { OnOk result (self.new.all.value ≡ put (λ q. q.number) request self.old.all.value) }
        ensures settled { OnOk result (self.new.settled.value ≡ self.old.settled.value) }
        ensures fits { OnOk result (PartsFit self.new) }
        ensures base { asked_base self.new ≡ asked_base self.old }
        ensures room { asked_room self.new ≡ asked_room self.old }
    {
        let all = Past::of::<(&Past<Request>, &Request), Put>(&(&self.all, &request));
        note_party(&mut self.known, self.alone, request.number)?;
        self.kept.put(alloc, request)?;
        self.all = all;
        Ok(())
    }

    /// The request, which has not left, takes the place of the one that had its number. It leaves where it is settled, and is over or has ended.
    pub(crate) fn replace(&mut self, alloc: Global, request: Request) -> Result<(), OutOfMemory>
        requires fits { PartsFit self.old }
        requires there { is_gone self.old.settled.value (request_in self.old.all.value request.number) ≡ false }
        requires unqueued { is_queued request.phase ≡ false }
        ensures all { OnOk result (self.new.all.value ≡ swap (λ q. q.number) request self.old.all.value) }
        ensures settled { OnOk result (self.new.settled.value ≡ self.old.settled.value) }
        ensures fits { OnOk result (PartsFit self.new) }
        ensures base { asked_base self.new ≡ asked_base self.old }
        ensures room { asked_room self.new ≡ asked_room self.old }
    {
        let all = Past::of::<(&Past<Request>, &Request), Swapped>(&(&self.all, &request));
        let number = request.number;
        if self.leaves(&request) {
            drop(request);
            self.kept.remove(alloc, number)?;
            self.told.remove(number)?;
            self.all = all;
            return Ok(());
        }
        self.kept.replace(alloc, request)?;
        self.all = all;
        Ok(())
    }

    /// The request of this number is settled. It leaves where it is over or has ended.
    pub(crate) fn settle(&mut self, alloc: Global, number: u32) -> Result<(), OutOfMemory>
        requires fits { PartsFit self.old }
        requires known { is_some (request_in self.old.all.value number) ≡ true }
        ensures all { OnOk result (self.new.all.value ≡ self.old.all.value) }
        ensures settled { OnOk result (self.new.settled.value ≡ marked number self.old.settled.value) }
        ensures fits { OnOk result (PartsFit self.new) }
        ensures base { asked_base self.new ≡ asked_base self.old }
        ensures room { asked_room self.new ≡ asked_room self.old }
    {
        let settled = Past::of::<(&Past<u32>, &u32), Noted>(&(&self.settled, &number));
        let Some(request) = self.kept.get(number) else {
            // It has left, and is settled.
            return Ok(());
        };
        let done = request.is_done();
        if done {
            self.kept.remove(alloc, number)?;
            self.settled = settled;
            return Ok(());
        }
        self.told.put(number)?;
        self.settled = settled;
        Ok(())
    }

    /// All changes go.
    pub(crate) fn roll_back(&mut self, alloc: Global)
        ensures all { self.new.all.value ≡ self.old.all_base.value }
        ensures settled { self.new.settled.value ≡ self.old.settled_base.value }
        ensures kept { self.new.kept.now ≡ items self.old.kept.base.table }
        ensures told { self.new.told.now ≡ items self.old.told.base }
        ensures known { self.new.known.now ≡ numbers_kept self.old.known.base }
        ensures base { asked_base self.new ≡ asked_base self.old }
        ensures room { asked_room self.new ≡ asked_room self.old }
    {
        let _kept = self.kept.undo(alloc);
        let _told = self.told.undo(alloc);
        let _known = self.known.undo(alloc);
        self.all = Past::of::<Past<Request>, SameRequests>(&self.all_base);
        self.settled = Past::of::<Past<u32>, SameNumbers>(&self.settled_base);
    }
}

//! How many connections a pool created, and which of them claims were told of.

ghost use Rattle.std.specs.Prelude.{◌≡◌, ◌∷◌, ◌++◌, []};
ghost use Rattle.mdb_slots.specs.Open.{or_else};
ghost use Rattle.mdb_pool.specs.Kept.Claiming.{claimed_after, no_claims};

use mdb_past::{Past, Tells};
use mdb_slots::UndoCell;
use std::marker::Model;

/// How many connections were created, and the last of them that a claim was told of, 0 where none was. Contracts see all that claims were told of. No
/// call takes memory.
#[derive(Drop)]
pub struct Claims {
    created: UndoCell<u32>,
    last: UndoCell<u32>,
    // All that claims were told of, and those that there were when they were last committed.
    all: Past<u32>,
    settled: Past<u32>,
}

impl Model for Claims {
    ghost use Rattle.mdb_pool.specs.Kept.Claiming.{OpenClaims};

    ghost Value = { OpenClaims };

    ghost view = { λ c. record { created = c.created; now = record { numbers = c.all.value; last = c.last.now }; base = record { numbers = c.settled.value; last = c.last.base } } };
}

/// Changes that were taken back, to be made again.
#[derive(Drop)]
pub struct ClaimsRedo {
    created: Option<u32>,
    last: Option<u32>,
    all: Past<u32>,
}

impl Model for ClaimsRedo {
    ghost use Rattle.mdb_pool.specs.Kept.Claiming.{CountSteps};

    ghost Value = { CountSteps };

    ghost view = { λ t. record { created = t.created; claimed = record { numbers = t.all.value; last = t.last } } };
}

// What is told is the list of numbers that is given.
struct Same;

impl Tells<Past<u32>, u32> for Same {
    ghost told = { λ p. p.value };
}

// One number more.
struct OneMore;

impl<'a> Tells<(&'a Past<u32>, &'a u32), u32> for OneMore {
    ghost use Rattle.std.specs.Prelude.{◌∷◌, ◌++◌, []};

    ghost told = { λ x. x.0.now.value ++ x.1.now ∷ [] };
}

impl Claims {
    /// Nothing was created.
    pub(crate) fn none() -> Claims
        ensures created { result.created ≡ record { now = 0; base = 0 } }
        ensures now { result.now ≡ no_claims }
        ensures base { result.base ≡ no_claims }
    {
        Claims {
            created: UndoCell::new(0),
            last: UndoCell::new(0),
            all: Past::none(),
            settled: Past::none(),
        }
    }

    /// How many connections were created.
    pub(crate) fn created(&self) -> u32
        ensures { result ≡ self.now.created.now }
    {
        *self.created.get()
    }

    /// The last one that a claim was told of.
    pub(crate) fn last(&self) -> u32
        ensures { result ≡ self.now.now.last }
    {
        *self.last.get()
    }

    /// So many were created.
    pub(crate) fn create(&mut self, created: u32)
        ensures created { (self.new.created.now ≡ created) × (self.new.created.base ≡ self.old.created.base) }
        ensures same { (self.new.now ≡ self.old.now) × (self.new.base ≡ self.old.base) }
    {
        self.created.set(created);
    }

    /// A claim is told of the connection.
    pub(crate) fn claim(&mut self, id: u32)
        ensures now { self.new.now ≡ record { numbers = self.old.now.numbers ++ id ∷ []; last = id } }
        ensures same { (self.new.created ≡ self.old.created) × (self.new.base ≡ self.old.base) }
    {
        let all = Past::of::<(&Past<u32>, &u32), OneMore>(&(&self.all, &id));
        self.last.set(id);
        self.all = all;
    }

    /// The changes go, and what comes back makes them again.
    pub(crate) fn undo(&mut self) -> ClaimsRedo
        ensures created { (self.new.created.now ≡ self.old.created.base) × (self.new.created.base ≡ self.old.created.base) }
        ensures claimed { (self.new.now ≡ self.old.base) × (self.new.base ≡ self.old.base) }
        ensures onto { or_else result.created self.new.created.base ≡ self.old.created.now }
        ensures onto_claimed { claimed_after result.claimed self.new.base ≡ self.old.now }
    {
        let all = Past::of::<Past<u32>, Same>(&self.all);
        let settled = Past::of::<Past<u32>, Same>(&self.settled);
        let redo = ClaimsRedo {
            created: self.created.undo(),
            last: self.last.undo(),
            all,
        };
        self.all = settled;
        redo
    }

    /// The changes go.
    pub(crate) fn roll_back(&mut self)
        ensures created { (self.new.created.now ≡ self.old.created.base) × (self.new.created.base ≡ self.old.created.base) }
        ensures claimed { (self.new.now ≡ self.old.base) × (self.new.base ≡ self.old.base) }
    {
        let _gone = self.undo();
    }

    /// Whatever was changed goes, and the changes are made again and stay.
    pub(crate) fn redo(&mut self, redo: ClaimsRedo)
        ensures created { (self.new.created.base ≡ or_else redo.created self.old.created.base) × (self.new.created.now ≡ self.new.created.base) }
        ensures claimed { (self.new.base ≡ claimed_after redo.claimed self.old.base) × (self.new.now ≡ self.new.base) }
    {
        let ClaimsRedo { created, last, all } = redo;
        self.created.redo(created);
        self.last.redo(last);
        self.settled = Past::of::<Past<u32>, Same>(&all);
        self.all = all;
    }

    /// The changes stay.
    pub(crate) fn commit(&mut self)
        ensures created { (self.new.created.now ≡ self.old.created.now) × (self.new.created.base ≡ self.old.created.now) }
        ensures claimed { (self.new.now ≡ self.old.now) × (self.new.base ≡ self.old.now) }
    {
        self.created.commit();
        self.last.commit();
        self.settled = Past::of::<Past<u32>, Same>(&self.all);
    }
}

//! Numbers that only come, whose changes can be taken back and made again. Those that stay take memory by the gaps between them.

ghost use Rattle.std.specs.Prelude.{◌≡◌, ◌≤◌, ◌+◌, ◌||◌, ◌++◌, ◌∷◌, [], ℕ, None, false, length, OnOk, OnErr};
ghost use Rattle.mdb_intervals.specs.Spans.{has as is_within};
ghost use Rattle.mdb_slots.specs.Lists.{has};
ghost use Rattle.mdb_slots.specs.Open.{or_else};
ghost use Rattle.mdb_slots.specs.NumberSet.{nothing_spanned, numbers_kept, put_all, spanned_after, capacity_after, NumbersFit};

use crate::number_steps::{NumberSetRedo, settle_all};
use mdb_base::OutOfMemory;
use mdb_intervals::Spans;
use mdb_past::{Past, Tells};
use std::alloc::Global;
use std::marker::Model;
use std::mem;

/// Numbers that were put, each once: as they are, and as they were when they were last committed. They never go.
#[derive(Drop)]
pub struct NumberSet {
    settled: Spans,
    // The settled numbers in the order in which they came.
    order: Past<u32>,
    fresh: NumberSetRedo,
}

impl Model for NumberSet {
    ghost use Rattle.std.specs.Prelude.{◌≡◌, ◌≤◌, ◌++◌, ℕ, length};
    ghost use Rattle.mdb_intervals.specs.Spans.{has as is_within};
    ghost use Rattle.mdb_slots.specs.Lists.{has};
    ghost use Rattle.mdb_slots.specs.NumberSet.{OpenNumbers, NumbersFit};

    ghost Value = { OpenNumbers };

    ghost view = { λ s. record { now = s.order.value ++ s.fresh.numbers; base = record { numbers = s.order.value; spans = s.settled.spans }; capacity = s.settled.capacity } };

    ghost invariant = { λ s. NumbersFit s.fresh (record { numbers = s.order.value; spans = s.settled.spans }) s.settled.capacity × (length s.settled.spans ≤ s.settled.capacity) × ((n : ℕ) → is_within n s.settled.spans ≡ has n s.order.value) };
}

// The numbers as they are.
struct Now;

impl Tells<NumberSet, u32> for Now {
    ghost told = { λ s. s.now };
}

// The numbers once the changes are made.
struct Redone;

impl<'a> Tells<(&'a NumberSet, &'a NumberSetRedo), u32> for Redone {
    ghost told = { λ x. numbers_kept (spanned_after x.1.now x.0.now.base) };
}

impl NumberSet {
    /// No numbers. It takes no memory.
    pub fn new(alloc: Global) -> NumberSet
        ensures now { result.now ≡ [] }
        ensures base { result.base ≡ nothing_spanned }
    {
        NumberSet {
            settled: Spans::new(alloc),
            order: Past::none(),
            fresh: NumberSetRedo::none(alloc),
        }
    }

    /// Whether the number was put.
    pub fn contains(&self, number: u32) -> bool
        ensures { result ≡ has number self.now.now }
    {
        self.settled.contains(number) || self.fresh.contains(number)
    }

    /// The number comes last.
    pub fn insert(&mut self, number: u32) -> Result<(), OutOfMemory>
        requires { has number self.old.now ≡ false }
        ensures now { OnOk result (self.new.now ≡ self.old.now ++ number ∷ []) }
        ensures same { OnErr result (self.new.now ≡ self.old.now) }
        ensures base { self.new.base ≡ self.old.base }
        ensures capacity { self.new.capacity ≡ self.old.capacity }
    {
        self.fresh.push(&self.settled, number)
    }

    /// The changes go, and what comes back makes them again. It takes no memory.
    pub fn undo(&mut self, alloc: Global) -> NumberSetRedo
        ensures now { self.new.now ≡ numbers_kept self.old.base }
        ensures base { self.new.base ≡ self.old.base }
        ensures capacity { self.new.capacity ≡ self.old.capacity }
        ensures fits { NumbersFit result self.new.base self.new.capacity }
        ensures onto { numbers_kept (spanned_after result self.new.base) ≡ self.old.now }
    {
        mem::replace(&mut self.fresh, NumberSetRedo::none(alloc))
    }

    /// Whatever was changed goes, and the changes are made again and stay. It takes no memory.
    pub fn redo(&mut self, mut redo: NumberSetRedo)
        requires { NumbersFit redo self.old.base self.old.capacity }
        ensures base { self.new.base ≡ spanned_after redo self.old.base }
        ensures now { self.new.now ≡ numbers_kept self.new.base }
        ensures capacity { self.new.capacity ≡ capacity_after redo self.old.capacity }
    {
        let order = Past::of::<(&NumberSet, &NumberSetRedo), Redone>(&(&*self, &redo));
        settle_all(&mut self.settled, &mut redo);
        self.fresh = redo;
        self.order = order;
    }

    /// The changes stay. It takes no memory.
    pub fn commit(&mut self)
        ensures now { self.new.now ≡ self.old.now }
        ensures base { numbers_kept self.new.base ≡ self.old.now }
    {
        let order = Past::of::<NumberSet, Now>(self);
        settle_all(&mut self.settled, &mut self.fresh);
        self.order = order;
    }
}

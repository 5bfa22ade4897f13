//! A value whose change is taken back, and can be made again.

ghost use Rattle.std.specs.Prelude.{◌≡◌};
ghost use Rattle.mdb_slots.specs.Open.{or_else};

use std::marker::Model;
use std::mem;

/// One value: it is seen as it is, and as it was when it was last committed. No call takes memory.
#[derive(Drop)]
pub struct UndoCell<T: Drop> {
    value: T,
    was: Option<T>,
}

impl<T: Drop> Model for UndoCell<T> {
    ghost use Rattle.mdb_slots.specs.Open.{OpenOne, or_else};

    ghost Value = { OpenOne T };

    ghost view = { λ t. record { now = t.value; base = or_else t.was t.value } };
}

impl<T: Drop> UndoCell<T> {
    pub fn new(value: T) -> UndoCell<T>
        ensures now { result.now ≡ value }
        ensures base { result.base ≡ value }
    {
        UndoCell { value, was: None }
    }

    /// The value as it is.
    pub fn get(&self) -> &T
        ensures { result.now ≡ self.now.now }
    {
        &self.value
    }

    /// The value takes the place of the one before.
    pub fn set(&mut self, value: T)
        ensures now { self.new.now ≡ value }
        ensures base { self.new.base ≡ self.old.base }
    {
        let before = mem::replace(&mut self.value, value);
        if self.was.is_none() {
            self.was = Some(before);
        }
    }

    /// The change stays.
    pub fn commit(&mut self)
        ensures now { self.new.now ≡ self.old.now }
        ensures base { self.new.base ≡ self.old.now }
    {
        if self.was.is_some() {
            self.was = None;
        }
    }

    /// The change goes, and what comes back makes it again.
    pub fn undo(&mut self) -> Option<T>
        ensures now { self.new.now ≡ self.old.base }
        ensures base { self.new.base ≡ self.old.base }
        ensures onto { or_else result self.new.base ≡ self.old.now }
    {
        match self.was.take() {
            Some(was) => Some(mem::replace(&mut self.value, was)),
            None => None,
        }
    }

    /// Whatever was changed goes, and the change is made again and stays.
    pub fn redo(&mut self, redo: Option<T>)
        ensures base { self.new.base ≡ or_else redo self.old.base }
        ensures now { self.new.now ≡ self.new.base }
    {
        if let Some(was) = self.was.take() {
            self.value = was;
        }
        if let Some(value) = redo {
            self.value = value;
        }
    }
}

//! A list whose changes are taken back, and can be made again.

ghost use Rattle.std.specs.Prelude.{◌≡◌, ◌<◌, ◌≤◌, ◌+◌, ◌++◌, ◌∷◌, [], None, length, slice_set, OnOk, OnErr};
ghost use Rattle.mdb_slots.specs.Open.{list_after, room_after, ListFits};

use crate::edit::{Edit, undo_all, redo_all};
use crate::storage::{enlarge, drop_storage, move_to};
use mdb_base::OutOfMemory;
use std::alloc::Global;
use std::marker::Model;
use std::mem;

// So many changes a list keeps room for that is changed as a whole now and then.
const FEW_CHANGES: usize = 64;

/// A list with a log of its changes: it is seen as it is, and as it was when it was last committed. A change that
/// is to be taken back without memory needs a place in the log, which is made before the change. Where the list
/// moved to larger storage since, it keeps the one that it had, so that a change is taken back with its memory.
#[derive(Drop)]
pub struct UndoList<T: Drop> {
    items: Vec<T>,
    log: Vec<Edit<T>>,
    before: Option<Vec<T>>,
}

impl<T: Drop> Model for UndoList<T> {
    ghost use Rattle.std.specs.Prelude.{◌≡◌, ◌≤◌, ◌-◌, [], length, option_map, IfSome, vec_capacity, vec_len};
    ghost use Rattle.mdb_slots.specs.Open.{Open, or_else};
    ghost use Rattle.mdb_slots.specs.Edits.{unwound};

    ghost Value = { Open T };

    ghost view = { λ t. record { now = t.items.items; base = unwound t.log.items t.items.items; capacity = or_else (option_map (λ v. vec_capacity v) t.before) (vec_capacity t.items); reach = vec_capacity t.items; room = vec_capacity t.log - vec_len t.log } };

    ghost invariant = { λ t. IfSome t.before (λ v. v.items ≡ []) × (length (unwound t.log.items t.items.items) ≤ or_else (option_map (λ v. vec_capacity v) t.before) (vec_capacity t.items)) };
}

/// Changes that were taken back, to be made again, and the larger storage for them, if they need it.
#[derive(Drop)]
pub struct Redo<T: Drop> {
    log: Vec<Edit<T>>,
    storage: Option<Vec<T>>,
}

impl<T: Drop> Model for Redo<T> {
    ghost use Rattle.std.specs.Prelude.{◌≡◌, [], option_map, IfSome, vec_capacity};
    ghost use Rattle.mdb_slots.specs.Open.{ListSteps};

    ghost Value = { ListSteps T };

    ghost view = { λ t. record { changes = t.log.items; storage = option_map (λ v. vec_capacity v) t.storage } };

    ghost invariant = { λ t. IfSome t.storage (λ v. v.items ≡ []) };
}

impl<T: Drop> UndoList<T> {
    /// No values. It takes no memory.
    pub fn new(alloc: Global) -> UndoList<T>
        ensures now { result.now ≡ [] }
        ensures base { result.base ≡ [] }
    {
        UndoList {
            items: Vec::new(alloc),
            log: Vec::new(alloc),
            before: None,
        }
    }

    /// The values as they are.
    pub fn as_slice(&self) -> &[T]
        ensures { result.now ≡ self.now.now }
    {
        self.items.as_slice()
    }

    // The log has room for so many more.
    #[cold]
    #[inline(never)]
    fn lengthen_log(&mut self, changes: usize) -> Result<(), OutOfMemory>
        ensures now { self.new.now ≡ self.old.now }
        ensures base { self.new.base ≡ self.old.base }
        ensures capacity { self.new.capacity ≡ self.old.capacity }
        ensures reach { self.new.reach ≡ self.old.reach }
        ensures room { OnOk result (changes ≤ self.new.room) }
        ensures kept { self.old.room ≤ self.new.room }
    {
        self.log.reserve(changes)?;
        Ok(())
    }

    /// So many changes may come without memory.
    #[inline]
    pub fn ready(&mut self, changes: usize) -> Result<(), OutOfMemory>
        ensures now { self.new.now ≡ self.old.now }
        ensures base { self.new.base ≡ self.old.base }
        ensures capacity { self.new.capacity ≡ self.old.capacity }
        ensures reach { self.new.reach ≡ self.old.reach }
        ensures room { OnOk result (changes ≤ self.new.room) }
        ensures kept { self.old.room ≤ self.new.room }
    {
        if changes <= self.log.capacity() - self.log.len() {
            return Ok(());
        }
        self.lengthen_log(changes)
    }

    /// So many values may come last without memory, and without a place in the log.
    #[inline]
    pub fn reserve(&mut self, more: usize) -> Result<(), OutOfMemory>
        ensures now { self.new.now ≡ self.old.now }
        ensures base { self.new.base ≡ self.old.base }
        ensures capacity { self.new.capacity ≡ self.old.capacity }
        ensures reach { self.old.reach ≤ self.new.reach }
        ensures within { OnOk result (length self.new.now + more ≤ self.new.reach) }
        ensures room { self.new.room ≡ self.old.room }
    {
        if more <= self.items.capacity() - self.items.len() {
            return Ok(());
        }
        let own = enlarge(&mut self.items, more)?;
        if self.before.is_none() {
            self.before = Some(own);
        }
        Ok(())
    }

    /// The value comes last. It takes no memory.
    pub fn push_ready(&mut self, value: T)
        requires within { length self.old.now < self.old.reach }
        requires room { 0 < self.old.room }
        ensures now { self.new.now ≡ self.old.now ++ value ∷ [] }
        ensures base { self.new.base ≡ self.old.base }
        ensures capacity { self.new.capacity ≡ self.old.capacity }
        ensures reach { self.new.reach ≡ self.old.reach }
        ensures room { self.old.room ≤ self.new.room + 1 }
    {
        self.items.push_reserved(value);
        self.log.push_reserved(Edit::Grew);
    }

    /// The value takes the place of another. It takes no memory.
    pub fn set_ready(&mut self, at: usize, value: T)
        requires within { at < length self.old.now }
        requires room { 0 < self.old.room }
        ensures now { self.new.now ≡ slice_set self.old.now at value }
        ensures base { self.new.base ≡ self.old.base }
        ensures capacity { self.new.capacity ≡ self.old.capacity }
        ensures reach { self.new.reach ≡ self.old.reach }
        ensures room { self.old.room ≤ self.new.room + 1 }
    {
        let old = mem::replace(&mut self.items[at], value);
        self.log.push_reserved(Edit::Put(at, old));
    }

    /// The value takes the place of another, and stays, as do all changes before it. It takes no memory, and needs no place in the log.
    pub fn set_lasting(&mut self, at: usize, value: T)
        requires { at < length self.old.now }
        ensures now { self.new.now ≡ slice_set self.old.now at value }
        ensures base { self.new.base ≡ self.new.now }
        ensures room { self.old.room ≤ self.new.room }
    {
        self.log.clear();
        self.before = None;
        self.items[at] = value;
    }

    /// The value comes last. Nothing changes where there is no memory.
    pub fn push(&mut self, value: T) -> Result<(), OutOfMemory>
        ensures now { OnOk result (self.new.now ≡ self.old.now ++ value ∷ []) }
        ensures same { OnErr result (self.new.now ≡ self.old.now) }
        ensures base { self.new.base ≡ self.old.base }
        ensures capacity { self.new.capacity ≡ self.old.capacity }
    {
        self.ready(1)?;
        self.reserve(1)?;
        self.push_ready(value);
        Ok(())
    }

    /// The value takes the place of another. Nothing changes where there is no memory.
    pub fn set(&mut self, at: usize, value: T) -> Result<(), OutOfMemory>
        requires { at < length self.old.now }
        ensures now { OnOk result (self.new.now ≡ slice_set self.old.now at value) }
        ensures same { OnErr result (self.new.now ≡ self.old.now) }
        ensures base { self.new.base ≡ self.old.base }
        ensures capacity { self.new.capacity ≡ self.old.capacity }
    {
        self.ready(1)?;
        self.set_ready(at, value);
        Ok(())
    }

    /// The changes go, and what comes back makes them again. The list has the memory that it had when it was last
    /// settled. It takes no memory: each change is turned where it stands.
    pub fn undo(&mut self, alloc: Global) -> Redo<T>
        ensures now { self.new.now ≡ self.old.base }
        ensures base { self.new.base ≡ self.old.base }
        ensures capacity { self.new.capacity ≡ self.old.capacity }
        ensures reach { self.new.reach ≡ self.old.capacity }
        ensures onto { list_after result self.new.base ≡ self.old.now }
        ensures fits { ListFits result self.new.base self.new.capacity }
    {
        undo_all(&mut self.items, &mut self.log);
        let storage = move_to(&mut self.items, self.before.take());
        let log = mem::replace(&mut self.log, Vec::new(alloc));
        Redo { log, storage }
    }

    /// Whatever was changed goes, and the changes are made again and stay. It takes no memory.
    pub fn redo(&mut self, redo: Redo<T>)
        requires { ListFits redo self.old.base self.old.capacity }
        ensures now { self.new.now ≡ list_after redo self.old.base }
        ensures base { self.new.base ≡ self.new.now }
        ensures capacity { self.new.capacity ≡ room_after redo self.old.capacity }
        ensures reach { self.new.reach ≡ self.new.capacity }
    {
        undo_all(&mut self.items, &mut self.log);
        let _gone = move_to(&mut self.items, self.before.take());
        let Redo { mut log, storage } = redo;
        let _own = move_to(&mut self.items, storage);
        redo_all(&mut self.items, &mut log);
        log.clear();
        self.log = log;
    }

    /// The changes stay.
    #[inline]
    pub fn commit(&mut self)
        ensures now { self.new.now ≡ self.old.now }
        ensures base { self.new.base ≡ self.old.now }
        ensures capacity { self.new.capacity ≡ self.old.reach }
        ensures reach { self.new.reach ≡ self.old.reach }
        ensures room { self.old.room ≤ self.new.room }
    {
        if !self.log.is_empty() {
            self.log.clear();
        }
        if self.before.is_some() {
            drop_storage(&mut self.before);
        }
    }

    /// The changes stay, and the log keeps room for few. So a change of the whole list keeps no memory beyond it.
    #[inline]
    pub fn commit_short(&mut self)
        ensures now { self.new.now ≡ self.old.now }
        ensures base { self.new.base ≡ self.old.now }
        ensures capacity { self.new.capacity ≡ self.old.reach }
        ensures reach { self.new.reach ≡ self.old.reach }
    {
        self.commit();
        if FEW_CHANGES < self.log.capacity() {
            self.log.shrink_to(FEW_CHANGES);
        }
    }
}

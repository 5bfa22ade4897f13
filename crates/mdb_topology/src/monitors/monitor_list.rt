//! The monitors of all pools that a driver opened, of which memory keeps those of the pools in which something lives.

ghost use Rattle.std.specs.Prelude.{◌≡◌, ◌==◌, ◌+◌, ◌≤◌, ◌<◌, ◌++◌, ◌∷◌, [], ℕ, OnOk, Some, None, true, false, if◌then◌else◌, find, length, option_copied, position, set, slice_get};
ghost use Rattle.mdb_log.specs.Connections.{has};
ghost use Rattle.mdb_driver_pools.specs.Living.{lives_at};

use crate::monitors::watched::Watched;
use mdb_base::OutOfMemory;
use mdb_driver_pools::Cores;
use mdb_monitor::MonitorCore;
use mdb_past::{Past, Tells};
use std::alloc::Global;
use std::marker::Model;

/// The monitors of all pools that a driver opened. Contracts see them all, and the places of those that memory keeps.
#[derive(Drop)]
pub struct Monitors {
    kept: Vec<Watched>,
    // How many pools were opened.
    opened: usize,
    // How many there may be before memory is wanted.
    room: usize,
    // All of them as they are. One that left is as it was then.
    all: Past<MonitorCore>,
}

impl Model for Monitors {
    ghost use Rattle.std.specs.Prelude.{◌≡◌, ◌+◌, ◌≤◌, length, vec_capacity};
    ghost use Rattle.mdb_topology.specs.Watching.{places, IsWatched, MonitorList};

    ghost Value = { MonitorList };

    ghost view = { λ m. record { items = m.all.value; kept = places m.kept.items; room = m.room } };

    ghost invariant = { λ m. IsWatched m.all.value m.kept.items × (m.opened ≡ length m.all.value) × (m.opened ≤ m.room) × (length m.kept.items + m.room ≤ vec_capacity m.kept + m.opened) };
}

// One more monitor comes.
struct OneMore;

impl<'a> Tells<(&'a Past<MonitorCore>, &'a MonitorCore), MonitorCore> for OneMore {
    ghost use Rattle.std.specs.Prelude.{◌++◌, ◌∷◌, []};

    ghost told = { λ x. x.0.now.value ++ x.1.now ∷ [] };
}

// The monitor at the place is another one.
struct Changed;

impl<'a> Tells<(&'a Past<MonitorCore>, &'a Watched), MonitorCore> for Changed {
    ghost use Rattle.std.specs.Prelude.{set};

    ghost told = { λ x. set x.0.now.value x.1.now.place x.1.now.monitor };
}

// The one at the place.
fn watched_at(kept: &[Watched], place: usize) -> Option<&Watched>
    ensures { option_copied result ≡ find (λ x. x.place == place) kept.now }
{
    kept.iter().find(|watched| watched.place == place)
}

// The index of the one at the place.
fn index_at(kept: &[Watched], place: usize) -> Option<usize>
    ensures { result ≡ position (λ x. x.place == place) kept.now }
{
    kept.iter().position(|watched| watched.place == place)
}

impl Monitors {
    /// None came.
    pub(crate) fn new(alloc: Global) -> Monitors
        ensures items { result.items ≡ [] }
        ensures kept { result.kept ≡ [] }
    {
        Monitors {
            kept: Vec::new(alloc),
            opened: 0,
            room: 0,
            all: Past::none(),
        }
    }

    /// The monitor at the place, where memory keeps it.
    pub(crate) fn get(&self, place: usize) -> Option<&MonitorCore>
        ensures { option_copied result ≡ if has place self.now.kept then slice_get self.now.items place else None }
    {
        match watched_at(self.kept.as_slice(), place) {
            Some(watched) => Some(&watched.monitor),
            None => None,
        }
    }

    /// The monitor at the place, which memory keeps.
    pub(crate) fn at(&self, place: usize) -> &MonitorCore
        requires { has place self.now.kept ≡ true }
        ensures { slice_get self.now.items place ≡ Some result.now }
    {
        match watched_at(self.kept.as_slice(), place) {
            Some(watched) => &watched.monitor,
            None => unreachable!(),
        }
    }

    /// Room for so many more, so that they take no memory when they come.
    pub(crate) fn reserve(&mut self, more: usize) -> Result<(), OutOfMemory>
        ensures items { self.new.items ≡ self.old.items }
        ensures kept { self.new.kept ≡ self.old.kept }
        ensures room { OnOk result (length self.new.items + more ≤ self.new.room) }
    {
        let Some(room) = self.opened.checked_add(more) else {
            return Err(OutOfMemory);
        };
        self.kept.reserve(more)?;
        if self.room < room {
            self.room = room;
        }
        Ok(())
    }

    /// One more comes last, for which there is room.
    pub(crate) fn push_reserved(&mut self, monitor: MonitorCore)
        requires { length self.old.items < self.old.room }
        ensures items { self.new.items ≡ self.old.items ++ monitor ∷ [] }
        ensures kept { self.new.kept ≡ self.old.kept ++ length self.old.items ∷ [] }
        ensures room { self.new.room ≡ self.old.room }
    {
        let all = Past::of::<(&Past<MonitorCore>, &MonitorCore), OneMore>(&(&self.all, &monitor));
        let place = self.opened;
        self.kept.push_reserved(Watched { place, monitor });
        self.opened += 1;
        self.all = all;
    }

    /// The monitor at the place, which memory keeps, becomes this one.
    pub(crate) fn put(&mut self, place: usize, monitor: MonitorCore)
        requires { has place self.old.kept ≡ true }
        ensures items { self.new.items ≡ set self.old.items place monitor }
        ensures kept { self.new.kept ≡ self.old.kept }
        ensures room { self.new.room ≡ self.old.room }
    {
        let watched = Watched { place, monitor };
        let all = Past::of::<(&Past<MonitorCore>, &Watched), Changed>(&(&self.all, &watched));
        let Some(index) = index_at(self.kept.as_slice(), place) else {
            unreachable!()
        };
        self.kept[index] = watched;
        self.all = all;
    }

    /// Those of the pools in which nothing lives leave memory.
    pub(crate) fn let_go(&mut self, cores: &Cores)
        ensures items { self.new.items ≡ self.old.items }
        ensures kept { (p : ℕ) → lives_at cores.now.items p ≡ true → has p self.new.kept ≡ has p self.old.kept }
        ensures gone { (p : ℕ) → lives_at cores.now.items p ≡ false → has p self.new.kept ≡ false }
        ensures room { self.new.room ≡ self.old.room }
    {
        self.kept.retain(|watched| cores.lives(watched.place));
    }

    /// After a step of the pool at the place: where nothing lives in it now, its monitor leaves memory.
    pub(crate) fn let_go_at(&mut self, cores: &Cores, place: usize)
        ensures items { self.new.items ≡ self.old.items }
        ensures kept { (p : ℕ) → lives_at cores.now.items p ≡ true → has p self.new.kept ≡ has p self.old.kept }
        ensures room { self.new.room ≡ self.old.room }
    {
        if !cores.lives(place) {
            self.let_go(cores);
        }
    }
}

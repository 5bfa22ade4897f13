//! How many watchers ask for a check now.

ghost use Rattle.std.specs.Prelude.{◌≡◌, length, IfOk, OnOk, OnErr};
ghost use Rattle.mdb_monitor.specs.Asking.{stands, wanted, unwanted};

use mdb_base::OutOfMemory;
use std::alloc::{AllocError, Global};
use std::marker::Model;

/// The watchers who ask for a check now, each once. Contracts see the list of their numbers, in the order in which
/// they asked.
#[derive(Debug, Drop)]
pub struct CheckCount {
    watchers: Vec<u32>,
}

impl Model for CheckCount {
    ghost use Rattle.std.specs.Prelude.{ℕ, List, IsTrue};
    ghost use Rattle.mdb_monitor.specs.Asking.{each_once};

    ghost Value = { List ℕ };

    ghost view = { λ c. c.watchers.items };

    ghost invariant = { λ c. IsTrue (each_once c.watchers.items) };
}

impl Clone for CheckCount {
    ghost is_clone = { λ s t. t ≡ s };

    fn clone(&self) -> Result<CheckCount, AllocError> {
        Ok(CheckCount {
            watchers: self.watchers.clone()?,
        })
    }
}

impl CheckCount {
    /// Nobody asks. No memory is taken.
    pub fn new(alloc: Global) -> CheckCount
        ensures { length result ≡ 0 }
    {
        CheckCount {
            watchers: Vec::new(alloc),
        }
    }

    /// The watcher asks, and asks once however often it does so. The answer is the count afterwards.
    pub fn want(&mut self, alloc: Global, watcher: u32) -> Result<u64, OutOfMemory>
        ensures wanted { OnOk result (self.new ≡ wanted watcher self.old) }
        ensures counted { IfOk result (λ n. n ≡ length self.new) }
        ensures unchanged { OnErr result (self.new ≡ self.old) }
    {
        let _alloc = alloc;
        if !self.stands(watcher) {
            self.watchers.push(watcher)?;
        }
        Ok(self.count())
    }

    /// The watcher asks no longer. The answer is the count afterwards. No memory is taken.
    pub fn unwant(&mut self, watcher: u32) -> u64
        ensures unwanted { self.new ≡ unwanted watcher self.old }
        ensures counted { result ≡ length self.new }
    {
        self.watchers.retain(|other| *other != watcher);
        self.count()
    }

    /// The number of watchers whose request stands. No memory is taken.
    pub fn count(&self) -> u64
        ensures { result ≡ length self.now }
    {
        self.watchers.len() as u64
    }

    fn stands(&self, watcher: u32) -> bool
        ensures { result ≡ stands watcher self.now }
    {
        self.watchers.iter().any(|other| *other == watcher)
    }
}

//! What is known of the numbered check-outs of all pools.

ghost use Rattle.std.specs.Prelude.{◌≡◌, ℕ, OnOk, if◌then◌else◌};
ghost use Rattle.mdb_recordings.specs.Tables.{caller_at, no_caller, same_key};

use crate::caller::Caller;
use crate::connections::Key;
use mdb_base::OutOfMemory;
use std::alloc::Global;
use std::collections::BTreeMap;

/// The numbered check-outs of all pools.
#[derive(Drop)]
pub struct Callers {
    pub map: BTreeMap<Key, Caller>,
}

impl Callers {
    /// Nothing was told.
    pub fn new(alloc: Global) -> Callers
        ensures { (p n i : ℕ) → caller_at result p n i ≡ no_caller }
    {
        Callers {
            map: BTreeMap::new(alloc),
        }
    }

    pub fn get(&self, key: Key) -> Caller
        ensures { result ≡ caller_at self.now key.0 key.1 key.2 }
    {
        match self.map.get(&key) {
            Some(caller) => *caller,
            None => Caller::UNTOLD,
        }
    }

    pub fn set(&mut self, key: Key, caller: Caller) -> Result<(), OutOfMemory>
        ensures { OnOk result ((p n i : ℕ) → caller_at self.new p n i ≡ if same_key key.0 key.1 key.2 p n i then caller else caller_at self.old p n i) }
    {
        self.map.insert(key, caller)?;
        Ok(())
    }
}

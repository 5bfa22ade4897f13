//! Values by up to three numbers.

ghost use Rattle.std.specs.Prelude.{◌≡◌, ℕ, OnOk, if◌then◌else◌};
ghost use Rattle.mdb_tallies.specs.Tables.{at, same_key};

use mdb_base::OutOfMemory;
use std::alloc::Global;
use std::collections::BTreeMap;

/// The numbers by which a value is named; those that are not needed are 0.
pub type Key = (u32, u32, u32);

/// A value for each key, the same one where none was set.
#[derive(Drop)]
pub struct DefaultMap<V: Copy> {
    pub map: BTreeMap<Key, V>,
    pub none: V,
}

impl<V: Copy> DefaultMap<V> {
    /// A table in which nothing was set.
    pub fn new(alloc: Global, none: V) -> DefaultMap<V>
        ensures { (a b c : ℕ) → at result a b c ≡ none }
    {
        DefaultMap {
            map: BTreeMap::new(alloc),
            none,
        }
    }

    pub fn get(&self, key: Key) -> V
        ensures { result ≡ at self.now key.0 key.1 key.2 }
    {
        match self.map.get(&key) {
            Some(value) => *value,
            None => self.none,
        }
    }

    pub fn set(&mut self, key: Key, value: V) -> Result<(), OutOfMemory>
        ensures { OnOk result ((a b c : ℕ) → at self.new a b c ≡ if same_key key.0 key.1 key.2 a b c then value else at self.old a b c) }
    {
        self.map.insert(key, value)?;
        Ok(())
    }
}

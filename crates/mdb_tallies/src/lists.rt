//! Lists of values, one for each number.

ghost use Rattle.std.specs.Prelude.{◌≡◌, ℕ, OnOk};
ghost use Rattle.mdb_tallies.specs.Lists.{nth, len, Pushes, Clears};

use crate::default_map::DefaultMap;
use mdb_base::OutOfMemory;
use std::alloc::Global;

/// A list for each number.
#[derive(Drop)]
pub struct Lists<V: Copy> {
    pub items: DefaultMap<V>,
    pub lengths: DefaultMap<u32>,
}

impl<V: Copy> Lists<V> {
    /// Lists that are empty.
    pub fn new(alloc: Global, none: V) -> Lists<V>
        ensures { (k : ℕ) → len result k ≡ 0 }
    {
        Lists {
            items: DefaultMap::new(alloc, none),
            lengths: DefaultMap::new(alloc, 0),
        }
    }

    pub fn len(&self, list: u32) -> u32
        ensures { result ≡ len self.now list }
    {
        self.lengths.get((list, 0, 0))
    }

    pub fn get(&self, list: u32, index: u32) -> V
        ensures { result ≡ nth self.now list index }
    {
        self.items.get((list, index, 0))
    }

    /// One more value, the last of its list.
    pub fn push(&mut self, list: u32, value: V) -> Result<(), OutOfMemory>
        ensures { OnOk result (Pushes list value self.old self.new) }
    {
        let index = self.len(list);
        match index.checked_add(1) {
            Some(more) => {
                self.items.set((list, index, 0), value)?;
                self.lengths.set((list, 0, 0), more)?;
                Ok(())
            }
            None => Err(OutOfMemory),
        }
    }
    /// The list is empty.
    pub fn clear(&mut self, list: u32) -> Result<(), OutOfMemory>
        ensures { OnOk result (Clears list self.old self.new) }
    {
        self.lengths.set((list, 0, 0), 0)?;
        Ok(())
    }
}

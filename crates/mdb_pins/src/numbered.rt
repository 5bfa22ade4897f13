//! Values by a number.

ghost use Rattle.std.specs.Prelude.{◌≡◌, ℕ, ◌==◌, OnOk, if◌then◌else◌};
ghost use Rattle.mdb_pins.specs.Numbered.{of_number};

use mdb_base::OutOfMemory;
use std::alloc::Global;
use std::collections::BTreeMap;

/// A value for each number, the same one where none was set.
#[derive(Drop)]
pub struct Numbered<V: Copy> {
    pub map: BTreeMap<u64, V>,
    pub none: V,
}

impl<V: Copy> Numbered<V> {
    /// Nothing was set.
    pub fn new(alloc: Global, none: V) -> Numbered<V>
        ensures { (n : ℕ) → of_number result n ≡ none }
    {
        Numbered {
            map: BTreeMap::new(alloc),
            none,
        }
    }

    pub fn get(&self, number: u64) -> V
        ensures { result ≡ of_number self.now number }
    {
        match self.map.get(&number) {
            Some(value) => *value,
            None => self.none,
        }
    }

    pub fn set(&mut self, number: u64, value: V) -> Result<(), OutOfMemory>
        ensures { OnOk result ((n : ℕ) → of_number self.new n ≡ if number == n then value else of_number self.old n) }
    {
        self.map.insert(number, value)?;
        Ok(())
    }
}

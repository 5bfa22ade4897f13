//! The addresses that a recording names.

ghost use Rattle.std.specs.Prelude.{◌≡◌, ℕ, List, [], None, IfOk};
ghost use Rattle.mdb_recording_lines.specs.Known.{Holds, Named, place};

use mdb_base::OutOfMemory;
use std::alloc::Global;
use std::collections::BTreeMap;

/// The addresses, in the order in which they were first named, and the place of each.
#[derive(Drop)]
pub struct Names {
    pub list: Vec<String>,
    pub map: BTreeMap<String, u32>,
}

impl Names {
    /// None was named.
    pub fn new(alloc: Global) -> Names
        ensures { Holds [] result }
    {
        Names {
            list: Vec::new(alloc),
            map: BTreeMap::new(alloc),
        }
    }

    // An address that was not named before.
    fn add(&mut self, alloc: Global, address: &str) -> Result<u32, OutOfMemory>
        ensures { IfOk result (λ n. (known : List (List ℕ)) → Holds known self.old → place address.now known ≡ None → Named address.now known n self.new) }
    {
        match u32::try_from(self.list.len()) {
            Ok(number) => {
                let name = String::from_str(alloc, address)?;
                let key = String::from_str(alloc, address)?;
                self.list.push(name)?;
                self.map.insert(key, number)?;
                Ok(number)
            }
            Err(_) => Err(OutOfMemory),
        }
    }

    /// The place of the address, which is named.
    pub fn number(&mut self, alloc: Global, address: &str) -> Result<u32, OutOfMemory>
        ensures { IfOk result (λ n. (known : List (List ℕ)) → Holds known self.old → Named address.now known n self.new) }
    {
        match self.map.get(address) {
            Some(number) => Ok(*number),
            None => self.add(alloc, address),
        }
    }
}

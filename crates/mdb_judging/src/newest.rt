//! The pool that was opened last at each address.

ghost use Rattle.std.specs.Prelude.{◌≡◌, None, Some, if◌then◌else◌, OnOk};
ghost use Rattle.mdb_base.specs.declared.address.ServerAddress.{ServerAddress};
ghost use Rattle.mdb_base.specs.Equality.{same_address};
ghost use Rattle.mdb_judging.specs.Newest.{last_at};

use mdb_base::{OutOfMemory, ServerAddress};
use std::alloc::Global;
use std::collections::BTreeMap;

/// The pool that was opened last at an address, and how often it had been closed by then.
#[derive(Clone, Copy, Debug)]
pub struct Last {
    pub number: u32,
    pub closings: u32,
}

/// The pool that was opened last at each address.
#[derive(Debug, Drop)]
pub struct Newest {
    pub map: BTreeMap<ServerAddress, Last>,
}

impl Newest {
    /// No pool was opened.
    pub fn new(alloc: Global) -> Newest
        ensures { (a : ServerAddress) → last_at result a ≡ None }
    {
        Newest {
            map: BTreeMap::new(alloc),
        }
    }

    /// The pool that was opened last at the address.
    pub fn get(&self, address: &ServerAddress) -> Option<Last>
        ensures { result ≡ last_at self.now address.now }
    {
        match self.map.get(address) {
            Some(last) => Some(*last),
            None => None,
        }
    }

    /// The pool was opened at the address.
    pub fn set(&mut self, address: ServerAddress, last: Last) -> Result<(), OutOfMemory>
        ensures { OnOk result ((a : ServerAddress) → last_at self.new a ≡ if same_address address a then Some last else last_at self.old a) }
    {
        self.map.insert(address, last)?;
        Ok(())
    }
}

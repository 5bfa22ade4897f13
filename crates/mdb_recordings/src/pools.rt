//! What is known of all pools.

ghost use Rattle.std.specs.Prelude.{◌≡◌, ◌==◌, ℕ, OnOk, if◌then◌else◌};
ghost use Rattle.mdb_recordings.specs.Tables.{pool_at, no_pool};

use crate::facts::Facts;
use crate::former::Former;
use crate::turns::Turns;
use mdb_base::OutOfMemory;
use std::alloc::Global;
use std::collections::HashMap;

/// The pool at an address: how often one was created there, and what is known of the last and of those before it.
#[derive(Clone, Copy, Debug)]
pub struct Pool {
    pub lives: u64,
    pub former: Former,
    pub facts: Facts,
    pub turns: Turns,
}

/// The pools, by the numbers of their addresses.
#[derive(Drop)]
pub struct Pools {
    pub map: HashMap<u32, Pool>,
}

impl Pools {
    /// Nothing was told.
    pub fn new(alloc: Global) -> Pools
        ensures { (p : ℕ) → pool_at result p ≡ no_pool }
    {
        Pools {
            map: HashMap::new(alloc),
        }
    }

    pub fn get(&self, pool: u32) -> Pool
        ensures { result ≡ pool_at self.now pool }
    {
        match self.map.get(&pool) {
            Some(known) => *known,
            None => Pool {
                lives: 0,
                former: Former::UNTOLD,
                facts: Facts::UNTOLD,
                turns: Turns::UNTOLD,
            },
        }
    }

    pub fn set(&mut self, pool: u32, known: Pool) -> Result<(), OutOfMemory>
        ensures { OnOk result ((p : ℕ) → pool_at self.new p ≡ if pool == p then known else pool_at self.old p) }
    {
        self.map.insert(pool, known)?;
        Ok(())
    }
}

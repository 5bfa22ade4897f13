//! What is known of the connections of all pools.

ghost use Rattle.std.specs.Prelude.{◌≡◌, ℕ, OnOk, if◌then◌else◌};
ghost use Rattle.mdb_recordings.specs.Tables.{connection_at, no_connection, same_key};

use crate::connection::Connection;
use mdb_base::OutOfMemory;
use std::alloc::Global;
use std::collections::BTreeMap;

/// A pool by the number of its address, how often one was created there, and what has a number there: a connection by its id, or a check-out.
pub type Key = (u32, u64, u64);

/// The connections of all pools.
#[derive(Drop)]
pub struct Connections {
    pub map: BTreeMap<Key, Connection>,
}

impl Connections {
    /// Nothing was told.
    pub fn new(alloc: Global) -> Connections
        ensures { (p n i : ℕ) → connection_at result p n i ≡ no_connection }
    {
        Connections {
            map: BTreeMap::new(alloc),
        }
    }

    pub fn get(&self, key: Key) -> Connection
        ensures { result ≡ connection_at self.now key.0 key.1 key.2 }
    {
        match self.map.get(&key) {
            Some(connection) => *connection,
            None => Connection::UNTOLD,
        }
    }

    pub fn set(&mut self, key: Key, connection: Connection) -> Result<(), OutOfMemory>
        ensures { OnOk result ((p n i : ℕ) → connection_at self.new p n i ≡ if same_key key.0 key.1 key.2 p n i then connection else connection_at self.old p n i) }
    {
        self.map.insert(key, connection)?;
        Ok(())
    }
}

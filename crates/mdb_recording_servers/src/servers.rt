//! What is known of all servers.

ghost use Rattle.std.specs.Prelude.{◌≡◌, ◌==◌, ℕ, OnOk, if◌then◌else◌};
ghost use Rattle.mdb_recording_servers.specs.ServerTables.{no_server, server_at};

use crate::server::Server;
use mdb_base::OutOfMemory;
use std::alloc::Global;
use std::collections::HashMap;

/// The servers, by the numbers of their addresses.
#[derive(Drop)]
pub struct Servers {
    pub map: HashMap<u32, Server>,
}

impl Servers {
    /// Nothing was told.
    pub fn new(alloc: Global) -> Servers
        ensures { (s : ℕ) → server_at result s ≡ no_server }
    {
        Servers {
            map: HashMap::new(alloc),
        }
    }

    pub fn get(&self, number: u32) -> Server
        ensures { result ≡ server_at self.now number }
    {
        match self.map.get(&number) {
            Some(server) => *server,
            None => Server::UNTOLD,
        }
    }

    pub fn set(&mut self, number: u32, server: Server) -> Result<(), OutOfMemory>
        ensures { OnOk result ((s : ℕ) → server_at self.new s ≡ if number == s then server else server_at self.old s) }
    {
        self.map.insert(number, server)?;
        Ok(())
    }
}

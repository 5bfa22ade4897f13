//! What is known of all servers, from one event to the next.

ghost use Rattle.std.specs.Prelude.{◌≡◌, ◌∷◌, [], List, OnOk};
ghost use Rattle.mdb_recording_servers.specs.declared.event.Seen.{Seen as Seen_};
ghost use Rattle.mdb_recording_servers.specs.ServerRules.{known_of};
ghost use Rattle.mdb_recording_servers.specs.ServerStanding.{StandsFor};
ghost use Rattle.mdb_recording_servers.specs.ServerTables.{SetsServer};

use crate::event::{Seen, ServerEvent};
use crate::known::Known;
use crate::server::Server;
use crate::servers::Servers;
use crate::topology::Topology;
use mdb_base::OutOfMemory;
use std::alloc::Global;

/// What was told of the servers so far. Each event takes one look-up and one change of a table, whatever came before.
#[derive(Drop)]
pub struct ServerJudge {
    pub servers: Servers,
    pub topology: Topology,
}

impl ServerJudge {
    /// Nothing was told.
    pub fn new(alloc: Global) -> ServerJudge
        ensures { StandsFor [] result }
    {
        ServerJudge {
            servers: Servers::new(alloc),
            topology: Topology::UNTOLD,
        }
    }

    /// What is known when the event comes.
    pub fn look(&self, event: &ServerEvent) -> Known
        ensures { (h : List Seen_) → StandsFor h self.now → result ≡ known_of h event.now }
    {
        let server = match event.server() {
            Some(number) => self.servers.get(number),
            None => Server::UNTOLD,
        };
        Known {
            server,
            topology: self.topology,
        }
    }

    // What the event tells of its server, if it names one, of which so much is known.
    fn note_server(&mut self, seen: &Seen, server: Server) -> Result<(), OutOfMemory>
        ensures servers { OnOk result (SetsServer seen.now.event seen.now.line server self.old.servers self.new.servers) }
        ensures topology { OnOk result (self.new.topology ≡ self.old.topology) }
    {
        if let ServerEvent::Server(number, told) = &seen.event {
            let after = server.after(told, seen.line)?;
            self.servers.set(*number, after)?;
        }
        Ok(())
    }

    /// The event comes; so much is known before it.
    pub fn note(&mut self, seen: &Seen, known: &Known) -> Result<(), OutOfMemory>
        ensures { OnOk result ((h : List Seen_) → StandsFor h self.old → known.now ≡ known_of h seen.now.event → StandsFor (seen.now ∷ h) self.new) }
    {
        self.note_server(seen, known.server)?;
        self.topology = known.topology.after(seen);
        Ok(())
    }
}

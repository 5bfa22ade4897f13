//! Facts that are told to those who handle events.

use crate::handling::EntryHandler;
use mdb_events::{CmapEventHandler, Fact, SdamEventHandler, deliver_cmap, deliver_sdam};
use mdb_log::Entry;
use std::alloc::Global;

/// Tells the events of pools to one handler and those of servers and topologies to another, in the order in which they stand in the entries. No clause says
/// what a handler's function does.
#[derive(Drop)]
pub struct Delivery {
    pub pools: Box<dyn CmapEventHandler + Drop>,
    pub servers: Box<dyn SdamEventHandler + Drop>,
}

/// Nothing goes wrong.
#[derive(Clone, Copy)]
pub enum Never {}

impl Delivery {
    fn tell(&self, fact: &Fact) {
        match fact {
            Fact::Pool(_, event) => deliver_cmap(&*self.pools, event),
            Fact::Sdam(event) => deliver_sdam(&*self.servers, event.get()),
            _ => {}
        }
    }
}

impl EntryHandler for Delivery {
    ghost use Rattle.std.specs.Prelude.{⊤};

    type Error = Never;

    ghost took = { λ first last entries. ⊤ };

    fn handle_entries(&mut self, _alloc: Global, entries: &[Entry]) -> Result<(), Never> {
        for entry in entries {
            for fact in entry.facts.as_slice() {
                self.tell(fact);
            }
        }
        Ok(())
    }

    ghost took_both = { λ first then last xs ys one other. tt };
}

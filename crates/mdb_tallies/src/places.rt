//! Changes of one connection.

ghost use Rattle.std.specs.Prelude.{Bool, OnOk};
ghost use Rattle.mdb_tallies.specs.Kept.{Follows};
ghost use Rattle.mdb_tallies.specs.declared.occurrence.Occurrence.TheVariants as change;

use crate::connection::Connection;
use crate::tables::Tables;
use mdb_base::OutOfMemory;

impl Tables {
    #[tactic(auto, using(crate::proofs::Placed::place_follows))]
    pub fn create(&mut self, pool: u32, id: u32) -> Result<(), OutOfMemory>
        ensures { OnOk result ((b : Bool) → Follows b (change.Created pool id) self.old self.new) }
    {
        let new = self.connections.get((pool, id, 0)).once_created()?;
        self.replace(pool, id, new, 1)?;
        Ok(())
    }

    #[tactic(auto, using(crate::proofs::Placed::place_follows))]
    pub fn close(&mut self, pool: u32, id: u32) -> Result<(), OutOfMemory>
        ensures { OnOk result ((b : Bool) → Follows b (change.Closed pool id) self.old self.new) }
    {
        let new = self.connections.get((pool, id, 0)).once_closed()?;
        self.replace(pool, id, new, 0)?;
        Ok(())
    }

    #[tactic(auto, using(crate::proofs::Placed::place_follows))]
    pub fn check_in(&mut self, pool: u32, id: u32) -> Result<(), OutOfMemory>
        ensures { OnOk result ((b : Bool) → Follows b (change.CheckedIn pool id) self.old self.new) }
    {
        let old = self.connections.get((pool, id, 0));
        let new = Connection {
            is_available: true,
            ..old
        };
        self.replace(pool, id, new, 0)?;
        Ok(())
    }

    #[tactic(auto, using(crate::proofs::Placed::place_follows))]
    pub fn establish(&mut self, pool: u32, id: u32) -> Result<(), OutOfMemory>
        ensures { OnOk result ((b : Bool) → Follows b (change.Established pool id) self.old self.new) }
    {
        let new = self.connections.get((pool, id, 0)).once_established();
        self.replace(pool, id, new, 0)?;
        Ok(())
    }

    #[tactic(auto, using(crate::proofs::Placed::place_follows))]
    pub fn fail(&mut self, pool: u32, id: u32) -> Result<(), OutOfMemory>
        ensures { OnOk result ((b : Bool) → Follows b (change.Failed pool id) self.old self.new) }
    {
        let old = self.connections.get((pool, id, 0));
        let new = Connection {
            is_tried: true,
            ..old
        };
        self.replace(pool, id, new, 0)?;
        Ok(())
    }
}

//! Changes of a party, of what it was given and of a pool.

ghost use Rattle.std.specs.Prelude.{Bool, OnOk};
ghost use Rattle.mdb_tallies.specs.Kept.{Follows, Covers};
ghost use Rattle.mdb_tallies.specs.declared.occurrence.Occurrence.TheVariants as change;

use crate::occurrence::How;
use crate::party::Party;
use crate::pools::Pool;
use crate::tables::Tables;
use mdb_base::OutOfMemory;

impl Tables {
    #[tactic(auto, using(crate::proofs::Noted::note_follows))]
    pub fn give_back(&mut self, party: u32) -> Result<(), OutOfMemory>
        ensures { OnOk result (Covers self.old → (b : Bool) → Follows b (change.Returned party) self.old self.new) }
    {
        self.party_did(How::GaveBack, party)?;
        let known = self.parties.get((party, 0, 0));
        let returned = Party {
            is_returned: true,
            ..known
        };
        self.parties.set((party, 0, 0), returned)?;
        Ok(())
    }

    #[tactic(auto, using(crate::proofs::Noted::note_follows))]
    pub fn end(&mut self, party: u32) -> Result<(), OutOfMemory>
        ensures { OnOk result (Covers self.old → (b : Bool) → Follows b (change.Ended party) self.old self.new) }
    {
        self.party_did(How::Over, party)?;
        let known = self.parties.get((party, 0, 0));
        let ended = Party {
            is_ended: true,
            ..known
        };
        self.parties.set((party, 0, 0), ended)?;
        Ok(())
    }

    #[tactic(auto, using(crate::proofs::Noted::note_follows))]
    pub fn open(&mut self, pool: u32) -> Result<(), OutOfMemory>
        ensures { OnOk result ((b : Bool) → Follows b (change.Opened pool) self.old self.new) }
    {
        let known = self.pools.get((pool, 0, 0));
        let opened = Pool {
            is_opened: true,
            ..known
        };
        self.pools.set((pool, 0, 0), opened)?;
        Ok(())
    }

    #[tactic(auto, using(crate::proofs::Noted::note_follows))]
    pub fn turn(&mut self, pool: u32, is_ready: bool) -> Result<(), OutOfMemory>
        ensures turned { OnOk result ((b : Bool) → Follows b (change.Turned pool is_ready) self.old self.new) }
        ensures began { OnOk result (Follows is_ready (change.Began pool) self.old self.new) }
    {
        let known = self.pools.get((pool, 0, 0));
        let turned = Pool { is_ready, ..known };
        self.pools.set((pool, 0, 0), turned)?;
        Ok(())
    }

    #[tactic(auto, using(crate::proofs::Noted::note_follows))]
    pub fn ask(&mut self, party: u32, pool: Option<u32>, is_warm: bool) -> Result<(), OutOfMemory>
        ensures { OnOk result ((b : Bool) → Follows b (change.Asked party pool is_warm) self.old self.new) }
    {
        let known = self.parties.get((party, 0, 0));
        let asked = if known.is_asked {
            known
        } else {
            Party {
                is_asked: true,
                pool,
                is_warm,
                ..known
            }
        };
        self.parties.set((party, 0, 0), asked)?;
        Ok(())
    }
}

//! The pins of all connections, after each change.

ghost use Rattle.std.specs.Prelude.{◌≡◌, ℕ, List, [], IfOk, OnOk};
ghost use Rattle.mdb_log.specs.History.{Item};
ghost use Rattle.mdb_tallies.specs.Kept.{Covers};
ghost use Rattle.mdb_tallies.specs.declared.occurrence.Occurrence.TheVariants as change;
ghost use Rattle.mdb_pins.specs.Following.{Grants, PinsFollow, pinned_now};
ghost use Rattle.mdb_pins.specs.Counts.{nobody};
ghost use Rattle.mdb_pins.specs.Numbered.{of_number};
ghost use Rattle.mdb_pins.specs.Standing.{PinsStand};

use crate::doings::Doings;
use crate::numbered::Numbered;
use crate::pins::Pins;
use crate::walk::{How, is_new, keeper, taken_by, walk};
use mdb_base::OutOfMemory;
use mdb_tallies::{Occurrence, Lists, Place, DefaultMap, Tables, one_more, push_if};
use std::alloc::Global;

/// The pins of each connection, and what each party did.
#[derive(Drop)]
pub struct PinStory {
    /// By pool and connection.
    pub pins: DefaultMap<Pins>,
    /// By party.
    pub doings: Numbered<Doings>,
    /// The connections that each party was granted.
    pub grants: Lists<Place>,
}

impl PinStory {
    /// The pins where nothing was read.
    pub fn new(alloc: Global) -> PinStory
        ensures stands { PinsStand [] result }
        ensures doings { (r : ℕ) → of_number result.doings r ≡ nobody }
    {
        let none = Pins {
            made: 0,
            before: 0,
            dropped: 0,
            keepers: 0,
            heard: 0,
            is_pinned: false,
        };
        let nobody = Doings {
            pins: 0,
            give_ups: 0,
            pins_then: 0,
        };
        PinStory {
            pins: DefaultMap::new(alloc, none),
            doings: Numbered::new(alloc, nobody),
            grants: Lists::new(alloc, Place { pool: 0, id: 0 }),
        }
    }

    /// The connection stands at its pin, where the history says so and at most one party keeps it.
    pub fn is_pinned(&self, kept: u64, pool: u32, id: u32) -> Result<bool, OutOfMemory>
        ensures { IfOk result (λ b. b ≡ pinned_now self.now kept pool id) }
    {
        let pins = self.pins.get((pool, id, 0));
        let alone = keeper(&self.doings, kept, &pins);
        pins.is_at_pin(&alone)
    }

    fn give_up(&mut self, tables: &Tables, party: u32) -> Result<(), OutOfMemory>
        ensures { OnOk result (Grants tables.now self.old.grants → PinsFollow (change.GivenUp party) tables.now self.old self.new) }
    {
        walk(
            &mut self.pins,
            &self.doings,
            tables,
            How::GaveUp,
            &self.grants,
            party,
        )?;
        let number = u64::from(party);
        let own = self.doings.get(number);
        let give_ups = one_more(own.give_ups)?;
        let now = Doings {
            give_ups,
            pins_then: own.pins,
            ..own
        };
        self.doings.set(number, now)?;
        Ok(())
    }

    fn give_back(&mut self, tables: &Tables, party: u32) -> Result<(), OutOfMemory>
        ensures { OnOk result (Covers tables.now → PinsFollow (change.Returned party) tables.now self.old self.new) }
    {
        let known = tables.parties.get((party, 0, 0));
        if known.is_returned {
            return Ok(());
        }
        walk(
            &mut self.pins,
            &self.doings,
            tables,
            How::GaveBack,
            &tables.places,
            party,
        )?;
        Ok(())
    }

    fn pin(&mut self, tables: &Tables, party: u32) -> Result<(), OutOfMemory>
        ensures { OnOk result (Grants tables.now self.old.grants → PinsFollow (change.Pinned party) tables.now self.old self.new) }
    {
        walk(
            &mut self.pins,
            &self.doings,
            tables,
            How::Pinned,
            &self.grants,
            party,
        )?;
        let number = u64::from(party);
        let own = self.doings.get(number);
        let pins = one_more(own.pins)?;
        self.doings.set(number, Doings { pins, ..own })?;
        Ok(())
    }

    fn replicate(&mut self, tables: &Tables, pool: u32, id: u32) -> Result<(), OutOfMemory>
        ensures { OnOk result (PinsFollow (change.Replicated pool id) tables.now self.old self.new) }
    {
        let known = tables.connections.get((pool, id, 0));
        let old = self.pins.get((pool, id, 0));
        let alone = keeper(&self.doings, known.kept, &old);
        let new = old.once_pinned(&alone)?;
        self.pins.set((pool, id, 0), new)?;
        Ok(())
    }

    fn unpin(&mut self, tables: &Tables, pool: u32, id: u32) -> Result<(), OutOfMemory>
        ensures { OnOk result (PinsFollow (change.Unpinned pool id) tables.now self.old self.new) }
    {
        let known = tables.connections.get((pool, id, 0));
        let old = self.pins.get((pool, id, 0));
        let alone = keeper(&self.doings, known.kept, &old);
        let new = old.once_unpinned(&alone)?;
        self.pins.set((pool, id, 0), new)?;
        Ok(())
    }

    fn take(&mut self, tables: &Tables, party: u32, pool: u32, id: u32) -> Result<(), OutOfMemory>
        ensures { OnOk result (PinsFollow (change.Taken party pool id) tables.now self.old self.new) }
    {
        let known = tables.connections.get((pool, id, 0));
        let is_new = is_new(tables, party, Place { pool, id });
        let old = self.pins.get((pool, id, 0));
        let new = taken_by(&self.doings, is_new, known.kept, party, old)?;
        self.pins.set((pool, id, 0), new)?;
        Ok(())
    }

    fn grant(&mut self, tables: &Tables, party: u32, pool: u32, id: u32) -> Result<(), OutOfMemory>
        ensures { OnOk result (PinsFollow (change.Granted party pool id) tables.now self.old self.new) }
    {
        let gift = tables.gifts.get((party, pool, id));
        push_if(
            !gift.is_granted,
            &mut self.grants,
            party,
            Place { pool, id },
        )?;
        Ok(())
    }

    /// The pins after a change; the tables are those before it.
    pub fn note(&mut self, tables: &Tables, change: &Occurrence) -> Result<(), OutOfMemory>
        ensures { OnOk result (Covers tables.now → Grants tables.now self.old.grants → PinsFollow change.now tables.now self.old self.new) }
    {
        match change {
            Occurrence::GivenUp(party) => self.give_up(tables, *party),
            Occurrence::Returned(party) => self.give_back(tables, *party),
            Occurrence::Pinned(party) => self.pin(tables, *party),
            Occurrence::Replicated(pool, id) => self.replicate(tables, *pool, *id),
            Occurrence::Taken(party, pool, id) => self.take(tables, *party, *pool, *id),
            Occurrence::Unpinned(pool, id) => self.unpin(tables, *pool, *id),
            Occurrence::Granted(party, pool, id) => self.grant(tables, *party, *pool, *id),
            _ => Ok(()),
        }
    }
}

//! What is known of all pools, from one event to the next.

ghost use Rattle.std.specs.Prelude.{◌≡◌, ◌∷◌, [], List, OnOk};
ghost use Rattle.mdb_recordings.specs.declared.event.Recorded.{Recorded as Event_};
ghost use Rattle.mdb_recordings.specs.Lives.{facts_of, former_of, life};
ghost use Rattle.mdb_recordings.specs.Noting.{Begins, GoesOn, Names};
ghost use Rattle.mdb_recordings.specs.Rules.{glance_of};
ghost use Rattle.mdb_recordings.specs.Standing.{Stands};

use crate::caller::Caller;
use crate::callers::Callers;
use crate::connection::Connection;
use crate::connections::Connections;
use crate::event::Recorded;
use crate::facts::{Facts, one_more};
use crate::former::Former;
use crate::glance::Glance;
use crate::pools::{Pool, Pools};
use crate::turns::Turns;
use mdb_base::OutOfMemory;
use std::alloc::Global;

/// What was told of the pools so far. Each event takes at most three look-ups, whatever came before.
#[derive(Drop)]
pub struct Judge {
    pub pools: Pools,
    pub connections: Connections,
    pub callers: Callers,
}

impl Judge {
    /// Nothing was told.
    pub fn new(alloc: Global) -> Judge
        ensures { Stands [] result }
    {
        Judge {
            pools: Pools::new(alloc),
            connections: Connections::new(alloc),
            callers: Callers::new(alloc),
        }
    }

    /// What is known when the event comes.
    pub fn look(&self, recorded: &Recorded) -> Glance
        ensures { (h : List Event_) → Stands h self.now → result ≡ glance_of h recorded.now }
    {
        let pool = self.pools.get(recorded.pool);
        let connection = match recorded.event.told.id() {
            Some(id) => self.connections.get((recorded.pool, pool.lives, id)),
            None => Connection::UNTOLD,
        };
        let caller = match recorded.event.caller {
            Some(number) => self.callers.get((recorded.pool, pool.lives, number)),
            None => Caller::UNTOLD,
        };
        Glance {
            former: pool.former,
            facts: pool.facts,
            connection,
            turns: pool.turns,
            caller,
        }
    }

    /// What is known of the pool.
    pub fn facts(&self, pool: u32) -> Facts
        ensures { (h : List Event_) → Stands h self.now → result ≡ facts_of (life pool h) }
    {
        self.pools.get(pool).facts
    }

    /// What is known of the pools at an address before the last.
    pub fn former(&self, pool: u32) -> Former
        ensures { (h : List Event_) → Stands h self.now → result ≡ former_of pool h }
    {
        self.pools.get(pool).former
    }

    // A pool begins at an address at which so many began before, and of which so much is known.
    fn begin(&mut self, recorded: &Recorded, known: &Glance, lives: u64) -> Result<(), OutOfMemory>
        ensures { OnOk result (Begins recorded.now known.now lives self.old self.new) }
    {
        let told = &recorded.event.told;
        let lives = one_more(lives)?;
        let former = known.former.after(told, &known.connection, &known.facts)?;
        let facts = Facts::UNTOLD.after(told, recorded.line, &Connection::UNTOLD)?;
        let turns = Turns::UNTOLD;
        let pool = Pool {
            lives,
            former,
            facts,
            turns,
        };
        self.pools.set(recorded.pool, pool)
    }

    // What is known of the connection that it names, and of the check-out, if it has the number of one.
    fn name(&mut self, recorded: &Recorded, known: &Glance, lives: u64) -> Result<(), OutOfMemory>
        ensures { OnOk result (Names recorded.now known.now lives self.old self.new) }
    {
        let event = &recorded.event;
        if let Some(id) = event.told.id() {
            let connection = known.connection.after(event, recorded.line, &known.facts);
            self.connections
                .set((recorded.pool, lives, id), connection)?;
        }
        if let Some(number) = event.caller {
            let place = one_more(known.turns.started)?;
            let caller = known.caller.after(&event.told, recorded.line, place);
            self.callers.set((recorded.pool, lives, number), caller)?;
        }
        Ok(())
    }

    // An event of the pool of which so much is known.
    fn go_on(&mut self, recorded: &Recorded, known: &Glance, lives: u64) -> Result<(), OutOfMemory>
        ensures { OnOk result (GoesOn recorded.now known.now lives self.old self.new) }
    {
        let event = &recorded.event;
        let former = known
            .former
            .after(&event.told, &known.connection, &known.facts)?;
        let facts = known
            .facts
            .after(&event.told, recorded.line, &known.connection)?;
        let turns = known.turns.after(event, recorded.line, &known.caller)?;
        self.name(recorded, known, lives)?;
        let pool = Pool {
            lives,
            former,
            facts,
            turns,
        };
        self.pools.set(recorded.pool, pool)
    }

    /// The event comes; so much is known before it.
    pub fn note(&mut self, recorded: &Recorded, known: &Glance) -> Result<(), OutOfMemory>
        ensures { OnOk result ((h : List Event_) → Stands h self.old → known.now ≡ glance_of h recorded.now → Stands (recorded.now ∷ h) self.new) }
    {
        let lives = self.pools.get(recorded.pool).lives;
        if recorded.event.told.begins() {
            self.begin(recorded, known, lives)?;
        } else {
            self.go_on(recorded, known, lives)?;
        }
        Ok(())
    }
}

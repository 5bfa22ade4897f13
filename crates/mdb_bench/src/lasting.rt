//! A driver of one thread, whose entries are let go from time to time.

ghost use Rattle.std.specs.Prelude.{◌≡◌, ◌++◌, ◌∷◌, [], length, IfOk, OnErr};
ghost use Rattle.mdb_log.specs.Acts.{IsDriverAct};
ghost use Rattle.mdb_log.specs.Driver.{IsEntry};
ghost use Rattle.mdb_log.specs.declared.log.Entry.{Entry};

use mdb_base::{Moment, OutOfMemory};
use mdb_journal::Journal;
use mdb_log::{Act, Core, Log, Reply, Step};
use std::alloc::Global;
use std::marker::Model;

/// A core with its log, of which the oldest entries may be gone.
#[derive(Drop)]
pub struct Lasting<C: Core> {
    core: C,
    journal: Journal,
}

impl<C: Core> Model for Lasting<C> {
    ghost use Rattle.std.specs.Coded.{codes};
    ghost use Rattle.mdb_base.specs.DocumentCode.{fields_coded};
    ghost use Rattle.mdb_journal.specs.Entries.{Entries};

    ghost Value = { Entries };

    ghost coded = { Prim.hlevel (codes, fields_coded) };

    ghost view = { λ l. l.journal };

    ghost invariant = { λ l. C.stands l.core l.journal.all };
}

impl<C: Core> Lasting<C> {
    /// A core that stands for this log, of which none is gone.
    pub fn new(core: C, log: Log) -> Lasting<C>
        requires stands { C.stands core log }
        ensures all { result.all ≡ log }
    {
        Lasting {
            core,
            journal: Journal::of(log),
        }
    }

    /// One step, which adds an entry.
    pub fn step(&mut self, alloc: Global, moment: Moment, act: Act) -> Result<Reply, OutOfMemory>
        requires act { IsDriverAct act }
        ensures entry { IfOk result (λ reply. (e : Entry) × IsEntry 0 (record { moment = moment; act = act }) reply e × (self.new.all ≡ self.old.all ++ e ∷ [])) }
        ensures gone { self.new.gone ≡ self.old.gone }
        ensures err { OnErr result (self.new ≡ self.old) }
    {
        let step = Step { moment, act };
        let stepped = self.journal.step(&mut self.core, alloc, 0, &step);
        drop(step);
        stepped
    }

    /// How many entries ever came.
    pub fn len(&self) -> u64
        ensures { result ≡ length self.now.all }
    {
        self.journal.len()
    }

    /// How many entries are gone.
    pub fn gone(&self) -> u64
        ensures { result ≡ self.now.gone }
    {
        self.journal.gone()
    }

    /// The entries that are there are let go.
    pub fn let_go(&mut self, alloc: Global)
        ensures all { self.new.all ≡ self.old.all }
        ensures gone { self.new.gone ≡ length self.old.all }
    {
        drop(self.journal.take(alloc));
    }
}

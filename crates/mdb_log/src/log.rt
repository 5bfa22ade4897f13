//! Logs of steps.

ghost use Rattle.std.specs.Prelude.{◌≡◌, ◌++◌, ◌∷◌, [], OnOk, OnErr, IfOk};

use super::{Reply, Step};
use mdb_base::Items;
use mdb_events::Fact;
use std::alloc::{AllocError, Global};
use std::marker::Model;

/// One step with its answer: the seat that made it, the reply, and the facts in their order.
#[derive(Debug, Drop)]
pub struct Entry {
    pub seat: u32,
    pub step: Step,
    pub reply: Reply,
    pub facts: Items<Fact>,
}

/// A list of entries, oldest first.
#[derive(Drop)]
pub struct Log {
    entries: Vec<Entry>,
}

impl Model for Log {
    ghost use Rattle.std.specs.Prelude.{List};
    ghost use Rattle.std.specs.Coded.{codes};
    ghost use Rattle.mdb_base.specs.DocumentCode.{fields_coded};
    ghost use Rattle.mdb_log.specs.declared.log.Entry.{Entry};

    ghost Value = { List Entry };

    ghost coded = { Prim.hlevel (codes, fields_coded) };

    ghost view = { λ l. l.entries.items };
}

impl Log {
    ghost use Rattle.std.specs.Prelude.{length};

    /// A log with no entry.
    pub fn new(alloc: Global) -> Log
        ensures { result ≡ [] }
    {
        Log {
            entries: Vec::new(alloc),
        }
    }

    /// The entries, oldest first.
    pub fn entries(&self) -> &[Entry]
        ensures { result.now ≡ self.now }
    {
        self.entries.as_slice()
    }

    /// The number of entries.
    pub fn len(&self) -> usize
        ensures { result ≡ length self.now }
    {
        self.entries.len()
    }

    /// One entry more, the last.
    pub fn push(&mut self, entry: Entry) -> Result<(), AllocError>
        ensures ok { OnOk result (self.new ≡ self.old ++ entry ∷ []) }
        ensures err { OnErr result (self.new ≡ self.old) }
    {
        self.entries.push(entry)?;
        Ok(())
    }

    /// One entry more, of a copy of the step. Its facts keep no memory beyond their own.
    pub fn enter(
        &mut self,
        seat: u32,
        step: &Step,
        reply: Reply,
        mut facts: Vec<Fact>,
    ) -> Result<(), AllocError>
        ensures entry { OnOk result (self.new ≡ self.old ++ record { seat = seat; step = step.now; reply = reply; facts = facts.items } ∷ []) }
        ensures err { OnErr result (self.new ≡ self.old) }
    {
        facts.shrink_to_fit();
        match step.clone() {
            Ok(step) => self.push(Entry {
                seat,
                step,
                reply,
                facts: Items::new(facts),
            }),
            Err(e) => {
                drop(reply);
                drop(facts);
                Err(e)
            }
        }
    }

    /// One entry more, as by `enter`. The answer is a copy of the reply.
    pub fn answer(
        &mut self,
        seat: u32,
        step: &Step,
        reply: Reply,
        facts: Vec<Fact>,
    ) -> Result<Reply, AllocError>
        ensures entry { OnOk result (self.new ≡ self.old ++ record { seat = seat; step = step.now; reply = reply; facts = facts.items } ∷ []) }
        ensures reply { IfOk result (λ told. told ≡ reply) }
        ensures err { OnErr result (self.new ≡ self.old) }
    {
        match reply.clone() {
            Ok(told) => {
                self.enter(seat, step, reply, facts)?;
                Ok(told)
            }
            Err(e) => {
                drop(reply);
                drop(facts);
                Err(e)
            }
        }
    }
}

//! A step of the driver in a slot, with its facts as numbers.

ghost use Rattle.std.specs.Prelude.{◌≡◌, ◌≢◌, ◌↔◌, List, None, Some, IsTrue, false};
ghost use Rattle.mdb_log.specs.declared.log.Entry.{Entry};
ghost use Rattle.mdb_log.specs.declared.step.Step.{Step as Done};
ghost use Rattle.mdb_lines.specs.Grammar.{is_act, is_open};
ghost use Rattle.mdb_lines.specs.Script.{Spells};
ghost use Rattle.mdb_session.specs.Sessions.{IsStepped, step_at};
ghost use Rattle.mdb_session.specs.Told.{IsTold};

use crate::at::At;
use crate::fact_numbers::FactNumbers;
use crate::numbers::ReplyNumbers;
use crate::slot::Slot;
use crate::status::{CLOSED, MALFORMED, NO_MEMORY, OK, Status};
use mdb_log::Act;
use std::alloc::Global;

/// A reply with the facts of its step.
#[repr(C)]
#[derive(Clone, Copy)]
pub struct Told {
    /// The reply.
    pub reply: ReplyNumbers,
    /// How many facts there are.
    pub count: u64,
    /// The facts, where there are no more than fit.
    pub facts: [FactNumbers; 8],
}

impl Slot {
    // Tells the facts of the last entry, if the slot is open.
    fn tell_facts(&mut self, alloc: Global, told: &mut Told)
        ensures told { (log : List Entry) → self.old.word.value ≡ Some log → IsTold log told.old told.new }
        ensures reply { told.new.reply ≡ told.old.reply }
        ensures same { self.new.word.value ≡ self.old.word.value }
    {
        let Some(session) = self.take(alloc) else {
            return;
        };
        let count = session.facts(&mut told.facts);
        told.count = count as u64;
        *self = Slot::holding(session);
    }

    /// Does the step that does this, as `step`, and tells the reply and the facts.
    pub fn step_told(&mut self, alloc: Global, at: &At, act: Act, told: &mut Told) -> Status
        requires spelled { IsTrue (is_act at.now.moment act) }
        requires later { is_open act ≡ false }
        ensures ok { result ≡ OK → IsStepped self.old.word.value self.new.word.value at.now.seat (step_at at.now act) told.new.reply }
        ensures told { result ≡ OK → (log : List Entry) × (self.new.word.value ≡ Some log) × IsTold log told.old told.new }
        ensures other { result ≢ OK → (self.new.word.value ≡ self.old.word.value) × (told.new ≡ told.old) }
        ensures formed { result ≢ MALFORMED }
        ensures closed { (result ≡ CLOSED) ↔ (self.old.word.value ≡ None) }
        ensures answers { result ≢ OK → result ≢ NO_MEMORY → result ≡ CLOSED }
    {
        let status = self.step(alloc, at, act, &mut told.reply);
        if status == OK {
            self.tell_facts(alloc, told);
        }
        status
    }

    /// Does the step that a line spells, as `line`, and tells the reply and the facts.
    pub fn line_told(&mut self, alloc: Global, seat: u32, line: &[u8], told: &mut Told) -> Status
        ensures ok { result ≡ OK → (s : Done) × Spells 2 line.now s × IsStepped self.old.word.value self.new.word.value seat s told.new.reply }
        ensures told { result ≡ OK → (log : List Entry) × (self.new.word.value ≡ Some log) × IsTold log told.old told.new }
        ensures other { result ≢ OK → (self.new.word.value ≡ self.old.word.value) × (told.new ≡ told.old) }
        ensures malformed { result ≡ MALFORMED → (s : Done) → Spells 2 line.now s → ⊥ }
        ensures closed { result ≡ CLOSED → self.old.word.value ≡ None }
        ensures answers { result ≢ OK → result ≢ NO_MEMORY → result ≢ MALFORMED → result ≡ CLOSED }
    {
        let status = self.line(alloc, seat, line, &mut told.reply);
        if status == OK {
            self.tell_facts(alloc, told);
        }
        status
    }
}

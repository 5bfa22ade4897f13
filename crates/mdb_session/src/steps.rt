//! A step of the driver in a slot, given as what it does.

ghost use Rattle.std.specs.Prelude.{◌≡◌, ◌≢◌, ◌↔◌, None, IsTrue, false};
ghost use Rattle.mdb_log.specs.Acts.{IsDriverAct};
ghost use Rattle.mdb_lines.specs.Grammar.{is_act, is_open};
ghost use Rattle.mdb_session.specs.Sessions.{IsStepped, step_at};

use crate::at::At;
use crate::numbers::{ReplyNumbers, numbers_of};
use crate::slot::Slot;
use crate::status::{CLOSED, MALFORMED, NO_MEMORY, OK, Status};
use mdb_log::{Act, Step};
use std::alloc::Global;

impl Slot {
    // Does the step and tells the reply.
    fn did(&mut self, alloc: Global, seat: u32, step: &Step, reply: &mut ReplyNumbers) -> Status
        requires { IsDriverAct step.now.act }
        ensures ok { result ≡ OK → IsStepped self.old.word.value self.new.word.value seat step.now reply.new }
        ensures other { result ≢ OK → (self.new.word.value ≡ self.old.word.value) × (reply.new ≡ reply.old) }
        ensures formed { result ≢ MALFORMED }
        ensures closed { (result ≡ CLOSED) ↔ (self.old.word.value ≡ None) }
        ensures answers { result ≢ OK → result ≢ NO_MEMORY → result ≡ CLOSED }
    {
        let Some(mut session) = self.take(alloc) else {
            return CLOSED;
        };
        let done = session.act(alloc, seat, step);
        *self = Slot::holding(session);
        match done {
            Ok(told) => {
                *reply = numbers_of(&told);
                drop(told);
                OK
            }
            Err(_) => NO_MEMORY,
        }
    }

    /// Does the step that does this, an act of a driver's callers, whether a line can spell it or not, and tells the reply.
    pub fn act(&mut self, alloc: Global, at: &At, act: Act, reply: &mut ReplyNumbers) -> Status
        requires { IsDriverAct act }
        ensures ok { result ≡ OK → IsStepped self.old.word.value self.new.word.value at.now.seat (step_at at.now act) reply.new }
        ensures other { result ≢ OK → (self.new.word.value ≡ self.old.word.value) × (reply.new ≡ reply.old) }
        ensures formed { result ≢ MALFORMED }
        ensures closed { (result ≡ CLOSED) ↔ (self.old.word.value ≡ None) }
        ensures answers { result ≢ OK → result ≢ NO_MEMORY → result ≡ CLOSED }
    {
        let step = Step {
            moment: at.moment,
            act,
        };
        let status = self.did(alloc, at.seat, &step, reply);
        drop(step);
        status
    }

    /// Does the step that does this, which a line spells, any but `open`, and tells the reply.
    pub fn step(&mut self, alloc: Global, at: &At, act: Act, reply: &mut ReplyNumbers) -> Status
        requires spelled { IsTrue (is_act at.now.moment act) }
        requires later { is_open act ≡ false }
        ensures ok { result ≡ OK → IsStepped self.old.word.value self.new.word.value at.now.seat (step_at at.now act) reply.new }
        ensures other { result ≢ OK → (self.new.word.value ≡ self.old.word.value) × (reply.new ≡ reply.old) }
        ensures formed { result ≢ MALFORMED }
        ensures closed { (result ≡ CLOSED) ↔ (self.old.word.value ≡ None) }
        ensures answers { result ≢ OK → result ≢ NO_MEMORY → result ≡ CLOSED }
    {
        self.act(alloc, at, act, reply)
    }
}

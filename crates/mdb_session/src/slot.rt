//! What a program in C keeps of a driver, and what it may do with it.
ghost use Rattle.std.specs.Prelude.{◌≡◌, ◌≢◌, ◌++◌, ◌∷◌, [], None, Some, IfNone, IfSome, is_some, false};
ghost use Rattle.mdb_log.specs.declared.step.Step.{Step};
ghost use Rattle.mdb_lines.specs.Script.{Spells};
ghost use Rattle.mdb_driver_rules.specs.Lines.{entry_after};
ghost use Rattle.mdb_session.specs.Sessions.{IsStepped};

use crate::loose::Loose;
use crate::numbers::{ReplyNumbers, numbers_of};
use crate::session::Session;
use crate::status::{CLOSED, MALFORMED, NO_MEMORY, OK, OPENED, Status, status_of};
use crate::word::Word;
use std::alloc::Global;
use std::mem::replace;

/// What stands in `state` while the slot is open. All else, such as zeros, is a closed slot.
pub const OPEN: u64 = 0x4d44_4253_4c4f_5431;

/// What C keeps of a driver: it makes the slot of zeros, hands it to the calls by its address, and neither reads nor writes it.
#[repr(C)]
#[derive(Drop)]
pub struct Slot {
    state: u64,
    pub word: Word,
    ghost opened: { state ≡ 5567647964866761777 → word.value ≢ None },
    ghost closed: { state ≢ 5567647964866761777 → is_some word.value ≡ false },
}

impl Slot {
    // A closed slot.
    pub(crate) fn empty(alloc: Global) -> Slot
        ensures { result.word.value ≡ None }
    {
        Slot {
            state: 0,
            word: Word::empty(alloc),
        }
    }

    /// An open slot with this session.
    pub fn holding(session: Box<Session>) -> Slot
        ensures { result.word.value ≡ Some session.value }
    {
        Slot {
            state: OPEN,
            word: Word::full(Loose::of(session)),
        }
    }

    // Whether it holds a session.
    #[tactic(auto, using(crate::proofs::Slots::nothing))]
    pub(crate) fn is_open(&self) -> bool
        ensures { result ≡ is_some self.now.word.value }
    {
        self.state == OPEN
    }

    /// Takes the session out, if there is one. The slot is closed then.
    #[tactic(auto, using(crate::proofs::Slots::nothing))]
    pub fn take(&mut self, alloc: Global) -> Option<Box<Session>>
        ensures closed { self.new.word.value ≡ None }
        ensures some { IfSome result (λ b. self.old.word.value ≡ Some b.value) }
        ensures none { IfNone result (self.old.word.value ≡ None) }
    {
        if self.state != OPEN {
            return None;
        }
        let Slot { state: _, word } = replace(self, Slot::empty(alloc));
        Some(word.into_loose().into_box())
    }

    /// Opens a driver by an `open` line in a closed slot.
    pub fn open_line(&mut self, alloc: Global, seat: u32, line: &[u8]) -> Status
        ensures ok { result ≡ OK → (s : Step) × Spells 1 line.now s × (self.old.word.value ≡ None) × (self.new.word.value ≡ Some (entry_after seat [] s ∷ [])) }
        ensures other { result ≢ OK → self.new.word.value ≡ self.old.word.value }
        ensures malformed { result ≡ MALFORMED → (s : Step) → Spells 1 line.now s → ⊥ }
        ensures opened { result ≡ OPENED → self.old.word.value ≢ None }
        ensures answers { result ≢ OK → result ≢ NO_MEMORY → result ≢ MALFORMED → result ≡ OPENED }
    {
        if self.is_open() {
            return OPENED;
        }
        let session = match Session::open_line(alloc, seat, line) {
            Ok(session) => session,
            Err(why) => return status_of(why),
        };
        match Box::new(alloc, session) {
            Ok(session) => {
                *self = Slot::holding(session);
                OK
            }
            Err(_) => NO_MEMORY,
        }
    }

    /// Does the step that a line spells, any but `open`, and tells the reply.
    pub fn line(
        &mut self,
        alloc: Global,
        seat: u32,
        line: &[u8],
        reply: &mut ReplyNumbers,
    ) -> Status
        ensures ok { result ≡ OK → (s : Step) × Spells 2 line.now s × IsStepped self.old.word.value self.new.word.value seat s reply.new }
        ensures other { result ≢ OK → (self.new.word.value ≡ self.old.word.value) × (reply.new ≡ reply.old) }
        ensures malformed { result ≡ MALFORMED → (s : Step) → Spells 2 line.now s → ⊥ }
        ensures closed { result ≡ CLOSED → self.old.word.value ≡ None }
        ensures answers { result ≢ OK → result ≢ NO_MEMORY → result ≢ MALFORMED → result ≡ CLOSED }
    {
        let Some(mut session) = self.take(alloc) else {
            return CLOSED;
        };
        let done = session.line(alloc, seat, line);
        *self = Slot::holding(session);
        match done {
            Ok(told) => {
                *reply = numbers_of(&told);
                drop(told);
                OK
            }
            Err(why) => status_of(why),
        }
    }

    /// Frees the driver, if there is one, and closes the slot.
    pub fn close(&mut self, alloc: Global)
        ensures { self.new.word.value ≡ None }
    {
        drop(self.take(alloc));
    }
}

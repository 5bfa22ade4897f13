//! What a program in C keeps of a pool.

ghost use Rattle.std.specs.Prelude.{◌≡◌, ◌≢◌, None, Some, IfNone, IfSome, is_some, false};

use crate::loose::Loose;
use crate::pool_session::PoolSession;
use crate::pool_word::PoolWord;
use std::alloc::Global;
use std::mem::replace;

/// What stands in `state` while the slot is open. All else, such as zeros, is a closed slot.
pub const OPEN: u64 = 0x4d44_4250_4f4f_4c31;

/// What C keeps of a pool: it makes the slot of zeros, hands it to the calls by its address, and neither reads nor writes it.
#[repr(C)]
#[derive(Drop)]
pub struct PoolSlot {
    state: u64,
    pub word: PoolWord,
    ghost opened: { state ≡ 5567647952032189489 → word.value ≢ None },
    ghost closed: { state ≢ 5567647952032189489 → is_some word.value ≡ false },
}

impl PoolSlot {
    // A closed slot.
    fn empty(alloc: Global) -> PoolSlot
        ensures { result.word.value ≡ None }
    {
        PoolSlot {
            state: 0,
            word: PoolWord::empty(alloc),
        }
    }

    /// An open slot with this pool.
    pub fn holding(session: Box<PoolSession>) -> PoolSlot
        ensures { result.word.value ≡ Some session.value }
    {
        PoolSlot {
            state: OPEN,
            word: PoolWord::full(Loose::of(session)),
        }
    }

    /// Whether it holds a pool.
    #[tactic(auto, using(crate::proofs::Slots::nothing))]
    pub fn is_open(&self) -> bool
        ensures { result ≡ is_some self.now.word.value }
    {
        self.state == OPEN
    }

    /// Takes the pool out, if there is one. The slot is closed then.
    #[tactic(auto, using(crate::proofs::Slots::nothing))]
    pub fn take(&mut self, alloc: Global) -> Option<Box<PoolSession>>
        ensures closed { self.new.word.value ≡ None }
        ensures some { IfSome result (λ b. self.old.word.value ≡ Some b.value) }
        ensures none { IfNone result (self.old.word.value ≡ None) }
    {
        if self.state != OPEN {
            return None;
        }
        let PoolSlot { state: _, word } = replace(self, PoolSlot::empty(alloc));
        Some(word.into_loose().into_box())
    }

    /// Frees the pool, if there is one, and closes the slot.
    pub fn close(&mut self, alloc: Global)
        ensures { self.new.word.value ≡ None }
    {
        drop(self.take(alloc));
    }
}

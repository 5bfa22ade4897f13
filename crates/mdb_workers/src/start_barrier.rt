//! Parts that are played in threads begin together, or none begins.

use std::rt::Clock;
use std::sync::atomic::{AtomicU64, Ordering};
use std::thread::sleep;
use std::time::Duration;

// How long the parts wait for each other to begin, in steps of a millisecond.
const PATIENCE: u32 = 5000;

// More than all parts: it is added once it is clear that one can't begin.
const MISSING: u64 = 1 << 32;

/// Parts that are to be played, each in a thread of its own, and how many of them have begun. Where a thread can't be started, its part is played by another
/// once that has played its own, and parts that wait for it would wait without end.
#[derive(Drop)]
pub struct StartBarrier {
    parts: u32,
    begun: AtomicU64,
}

impl StartBarrier {
    /// So many parts are to begin.
    pub fn new(parts: u32) -> StartBarrier {
        StartBarrier {
            parts,
            begun: AtomicU64::new(0),
        }
    }

    // Whether all have begun, where so many have. None while that is open.
    fn outcome(&self, begun: u64) -> Option<bool> {
        if begun >= MISSING {
            return Some(false);
        }
        if begun >= self.parts as u64 {
            return Some(true);
        }
        None
    }

    // Says that a part is missing, unless all have begun by now. After that no part goes on.
    fn give_up(&self) -> bool {
        let mut begun = self.begun.load(Ordering::SeqCst);
        for _ in 0..PATIENCE {
            if let Some(outcome) = self.outcome(begun) {
                return outcome;
            }
            let missing = begun.saturating_add(MISSING);
            match self
                .begun
                .compare_exchange(begun, missing, Ordering::SeqCst, Ordering::SeqCst)
            {
                Ok(_) => return false,
                Err(found) => begun = found,
            }
        }
        false
    }

    /// Begins a part, and waits until all have begun: true, and the part may be played. Who waits longer than five seconds says that one is missing: false, and no
    /// part is to be played.
    pub fn begin<R: Clock>(&self, rt: &R) -> bool {
        self.begun.fetch_add(1, Ordering::SeqCst);
        for _ in 0..PATIENCE {
            if let Some(outcome) = self.outcome(self.begun.load(Ordering::SeqCst)) {
                return outcome;
            }
            sleep(rt, Duration::from_millis(1));
        }
        self.give_up()
    }
}

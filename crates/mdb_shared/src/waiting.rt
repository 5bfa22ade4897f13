//! Waiting for the turn, and sleeping until the log tells news. Nothing of it is claimed but that it is safe: no clause says that a sleep ends.

use crate::driver::SharedDriver;
use mdb_log::Core;
use std::hint::spin_loop;
use std::sync::Wait;
use std::sync::atomic::Ordering;
use std::time::Duration;

// How often one looks at the bell before one sleeps: some microseconds.
const LOOKS_AT_BELL: u32 = 2_000;

// How often one looks at the turn before one sleeps: while one seat has it, and while it goes from seat to seat.
const LOOKS_AT_SEAT: u32 = 40;

const LOOKS_AT_TURN: u32 = 400;

// How many reads are a pause between two looks at the turn.
const PAUSE: u32 = 2_000;

fn low(word: u64) -> u32 {
    (word % (1 << 32)) as u32
}

impl<C: Core> SharedDriver<C> {
    // Whether the bell has changed by the time that one has looked at it a few times.
    fn has_rung(&self, from: u64) -> bool {
        for _ in 0..LOOKS_AT_BELL {
            if self.table.shared.peek(1) != from {
                return true;
            }
            spin_loop();
        }
        false
    }

    // Some hundred nanoseconds pass. `spin_loop` compiles to nothing here, so they pass by reads. What is read seldom changes, so nobody is disturbed by it.
    fn pause(&self) {
        for _ in 0..PAUSE {
            self.at_turn.load(Ordering::SeqCst);
        }
    }

    // The turn word after some looks at it, 0 where the turn is free. As long as it goes from seat to seat, it is soon free. One looks seldom, so that the seat
    // which has just released the turn may take it again: what a step reads is still in the cache of its processor, and no other has to fetch it.
    fn watch_turn(&self, found: u64) -> u64 {
        let mut word = found;
        let mut looks = 0u32;
        for _ in 0..LOOKS_AT_TURN {
            self.pause();
            let now = self.table.shared.peek(0);
            if now == 0 {
                return 0;
            }
            looks = if now == word {
                looks.saturating_add(1)
            } else {
                0
            };
            word = now;
            if LOOKS_AT_SEAT <= looks {
                return word;
            }
        }
        word
    }

    // Waits for the turn, whose word was found: a little while awake, and then asleep.
    pub(crate) fn await_turn<R: Wait>(&self, rt: &R, found: u64) {
        let word = self.watch_turn(found);
        if word == 0 {
            return;
        }
        self.at_turn.fetch_add(1, Ordering::SeqCst);
        self.table.shared.park(rt, 0, low(word));
        self.at_turn.fetch_sub(1, Ordering::SeqCst);
    }

    // The turn was released: one who sleeps for it is woken. Who goes to sleep is counted before the kernel looks at the turn word, so either
    // this counts it, or it finds the word changed and doesn't sleep.
    pub(crate) fn pass_turn(&self) {
        if self.at_turn.load(Ordering::SeqCst) != 0 {
            self.table.shared.wake_one(0);
        }
    }

    /// Wakes all who sleep until the log tells news. Each looks by itself whether the news is for it, so it rests on no order of those who sleep.
    pub fn wake(&self) {
        if self.at_bell.load(Ordering::SeqCst) != 0 {
            self.table.shared.wake_all(1);
        }
    }

    /// Sleeps while the log has this many entries, until an entry is news to others, or a call of `wake`. It may also return for no reason.
    pub fn sleep<R: Wait>(&self, rt: &R, count: u64) {
        self.sleep_for(rt, count, Duration::MAX);
    }

    /// Sleeps as `sleep` does, for no longer than this time.
    pub fn sleep_for<R: Wait>(&self, rt: &R, count: u64, most: Duration) {
        if self.has_rung(count) {
            return;
        }
        self.at_bell.fetch_add(1, Ordering::SeqCst);
        self.table.shared.park_timeout(rt, 1, low(count), most);
        self.at_bell.fetch_sub(1, Ordering::SeqCst);
    }
}

//! How long a caller waits.

ghost use Rattle.std.specs.Prelude.{IfNone, ⊤};

use std::rt::Clock;
use std::time::{Duration, Instant};

// What says how long one may still sleep.
pub(crate) trait Limit {
    // It may come to its end.
    ghost ends: { Self → Type 0 };

    // None where the time is over.
    fn left(&self) -> Option<Duration>
        ensures { IfNone result (ends self.now) };
}

// No limit.
#[derive(Clone, Copy)]
pub(crate) struct Endless;

impl Limit for Endless {
    ghost ends = { λ s. ⊥ };

    fn left(&self) -> Option<Duration> {
        Some(Duration::MAX)
    }
}

// So long from a moment on, by a clock. A clock that can't be read ends it.
#[derive(Drop)]
pub(crate) struct Within<'a, R: Clock> {
    pub clock: &'a R,
    pub start: Option<Instant>,
    pub limit: Duration,
}

impl<'a, R: Clock> Limit for Within<'a, R> {
    ghost ends = { λ s. ⊤ };

    fn left(&self) -> Option<Duration> {
        let passed = self.start?.elapsed(self.clock).ok()?;
        self.limit.checked_sub(passed)
    }
}

//! What counts say of places, of who waits and of who may be granted a connection.

ghost use Rattle.std.specs.Prelude.{◌≡◌, ℕ, ◌+◌, IfOk};
ghost use Rattle.mdb_tallies.specs.Verdicts.{held_now, places_now, in_place_now, queued_now, waits_now, may_create_now, could_grant_now};

use crate::connection::Connection;
use crate::counts::one_if;
use crate::party::Party;
use crate::pools::Pool;
use mdb_base::OutOfMemory;
use mdb_log::{DEFAULT_MAX_CONNECTING, DEFAULT_MAX_POOL_SIZE, PoolOptions};

fn sum(a: u64, b: u64) -> Result<u64, OutOfMemory>
    ensures { IfOk result (λ n. n ≡ a + b) }
{
    match a.checked_add(b) {
        Some(sum) => Ok(sum),
        None => Err(OutOfMemory),
    }
}

impl Connection {
    fn held(&self) -> Result<u64, OutOfMemory>
        ensures { IfOk result (λ n. n ≡ held_now self.now) }
    {
        if self.is_pending() {
            Ok(self.kept)
        } else {
            sum(self.kept, self.lent)
        }
    }

    fn places(&self, is_pinned: bool) -> Result<u64, OutOfMemory>
        ensures { IfOk result (λ n. n ≡ places_now self.now is_pinned) }
    {
        let here = one_if(self.is_pending()) + one_if(self.is_available) + one_if(is_pinned);
        sum(here, self.held()?)
    }

    /// It has as many places as creations beyond its closings, and one at most; one that was never created was never closed.
    /// Whether it stands at its pin is told.
    pub fn is_in_place(&self, is_pinned: bool) -> Result<bool, OutOfMemory>
        ensures { IfOk result (λ b. b ≡ in_place_now self.now is_pinned) }
    {
        if self.creations == 0 {
            return Ok(self.closings == 0);
        }
        let places = self.places(is_pinned)?;
        Ok(sum(places, self.closings)? == self.creations && places <= 1)
    }
}

impl Party {
    /// It asked, and was neither granted a connection nor did its request end.
    pub fn is_queued(&self) -> bool
        ensures { result ≡ queued_now self.now }
    {
        self.is_asked && !self.is_granted && !self.is_ended
    }

    /// A caller of the pool that was neither granted a connection nor ended.
    pub fn waits_at(&self, pool: u32) -> bool
        ensures { result ≡ waits_now pool self.now }
    {
        self.pool == Some(pool) && !self.is_granted && !self.is_ended && !self.is_warm
    }
}

impl Pool {
    fn may_create(&self, options: &PoolOptions) -> Result<bool, OutOfMemory>
        ensures { IfOk result (λ b. b ≡ may_create_now options.now self.now) }
    {
        let max = u64::from(options.max_pool_size.unwrap_or(DEFAULT_MAX_POOL_SIZE));
        let connecting = u64::from(options.max_connecting.unwrap_or(DEFAULT_MAX_CONNECTING));
        Ok(
            self.created < u64::from(options.limit_id)
                && self.created < sum(max, self.closed)?
                && self.pending < connecting,
        )
    }

    /// A caller could be granted a connection.
    pub fn could_grant(&self, options: &PoolOptions) -> Result<bool, OutOfMemory>
        ensures { IfOk result (λ b. b ≡ could_grant_now options.now self.now) }
    {
        if !self.is_opened || !self.is_ready {
            return Ok(false);
        }
        Ok(0 < self.available || self.may_create(options)?)
    }
}

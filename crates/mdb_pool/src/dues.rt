//! When time changes something in a pool, and by which timer.
#![tactic(auto, unfolding(crate::specs::Now::queries))]

ghost use Rattle.std.specs.Prelude.{◌≡◌, List};

use crate::pool_core::PoolCore;
use mdb_base::Moment;

/// What time brings a pool to.
#[derive(Clone, Copy, Debug, PartialEq, Eq)]
pub enum Timer {
    /// Callers have waited for too long: `expire`.
    Expire,
    /// Connections have perished, or too few live: `maintain`.
    Maintain,
}

impl PoolCore {
    ghost use Rattle.mdb_log.specs.History.{PoolItem};
    ghost use Rattle.mdb_pool.specs.Dues.{first_asked, first_since, next_due, next_expiry, next_maintenance, some_perished, timer_at, wants_filling};
    ghost use Rattle.mdb_pool.specs.Standing.{Fits};

    /// When the caller asked that waits in the queue before all others, `None` where nobody waits. As moments never go back, it is the first that
    /// will have waited for `max_wait`. It takes the time of passing by the warm requests that are queued before it.
    pub fn first_asked(&self) -> Option<Moment>
        ensures { (xs : List PoolItem) → Fits self.now xs → result ≡ first_asked xs }
    {
        self.draft.body.first_asked()
    }

    /// Since when the connection is available that became so before all others, `None` where none is. As moments never go back, it is the first
    /// that will have been idle for `max_idle_time`.
    pub fn first_since(&self) -> Option<Moment>
        ensures { (xs : List PoolItem) → Fits self.now xs → result ≡ first_since xs }
    {
        self.draft.body.first_since()
    }

    /// Some available connection has perished at the moment: it is stale, or idle for too long, so that maintenance closes it. It takes the time of
    /// passing by the available connections that have not.
    pub fn has_perished(&self, moment: Moment) -> bool
        ensures { (xs : List PoolItem) → Fits self.now xs → result ≡ some_perished self.now.options moment xs }
    {
        self.draft.body.first_perished(moment).is_some()
    }

    /// Maintenance creates a connection: the pool is ready, fewer live than the minimum and fewer are pending than may be.
    pub fn wants_filling(&self) -> bool
        ensures { (xs : List PoolItem) → Fits self.now xs → result ≡ wants_filling self.now.options xs }
    {
        self.draft.body.wants_filling()
    }

    /// The first moment at which `expire` ends a caller, whether it has passed or not. `None` where nobody waits, or callers wait without a limit. Time
    /// is as of `first_asked`.
    pub fn next_expiry(&self) -> Option<Moment>
        ensures { (xs : List PoolItem) → Fits self.now xs → result ≡ next_expiry self.now.options xs }
    {
        self.draft.body.next_expiry()
    }

    /// The first moment from the given one on at which `maintain` closes or creates a connection, unless another step comes before: the given one,
    /// where it does so at once, or else when the first available connection has been idle for too long. `None` where no time brings it to that. Time is
    /// as of `has_perished`.
    pub fn next_maintenance(&self, moment: Moment) -> Option<Moment>
        ensures { (xs : List PoolItem) → Fits self.now xs → result ≡ next_maintenance self.now.options moment xs }
    {
        self.draft.body.next_maintenance(moment)
    }

    /// The timer that changes something at the moment; the expiry comes before the maintenance. Time is as of `next_expiry` and `next_maintenance`.
    pub fn timer_at(&self, moment: Moment) -> Option<Timer>
        ensures { (xs : List PoolItem) → Fits self.now xs → result ≡ timer_at self.now.options moment xs }
    {
        self.draft.body.timer_at(moment)
    }

    /// The first moment from the given one on at which a timer changes something, unless another step comes before. `None` where no time brings it to
    /// that. Time is as of `next_expiry` and `next_maintenance`.
    pub fn next_due(&self, moment: Moment) -> Option<Moment>
        ensures { (xs : List PoolItem) → Fits self.now xs → result ≡ next_due self.now.options moment xs }
    {
        self.draft.body.next_due(moment)
    }
}

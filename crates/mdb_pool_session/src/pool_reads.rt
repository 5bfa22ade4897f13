//! What a pool that stands alone tells without a step.

ghost use Rattle.std.specs.Prelude.{◌≡◌, length, option_copied};
ghost use Rattle.mdb_log.specs.Connections.{available_list, pending_list};
ghost use Rattle.mdb_log.specs.Requests.{waiting};
ghost use Rattle.mdb_log.specs.State.{generation_of, state_of};
ghost use Rattle.mdb_pool.specs.Counted.{in_use_total};
ghost use Rattle.mdb_pool.specs.Dues.{next_due, timer_at};
ghost use Rattle.mdb_pool.specs.Now.{name_of};
ghost use Rattle.mdb_pool_session.specs.PoolLogs.{items, last_entry};

use crate::pool_session::PoolSession;
use mdb_base::{Moment, ObjectId};
use mdb_log::Entry;
use mdb_pool::{PoolState, Timer};

impl PoolSession {
    /// The last entry, if there is one.
    pub fn last(&self) -> Option<&Entry>
        ensures { option_copied result ≡ last_entry self.now.entries }
    {
        self.last.entries().first()
    }

    /// The number of the pool.
    pub fn number(&self) -> u32
        ensures { result ≡ self.now.number }
    {
        self.core.number()
    }

    /// Whether the pool may be used.
    pub fn state(&self) -> PoolState
        ensures { result ≡ name_of (state_of self.now.options (items self.now)) }
    {
        self.core.state()
    }

    /// How often the pool was cleared: for the service, or as a whole where there is none (CMAP, "Generation").
    pub fn generation(&self, service: Option<ObjectId>) -> u64
        ensures { result ≡ generation_of (items self.now) service }
    {
        self.core.generation(service)
    }

    /// How many connections nobody has.
    pub fn available(&self) -> usize
        ensures { result ≡ length (available_list (items self.now)) }
    {
        self.core.available_count()
    }

    /// How many connections are in use: they are neither available nor pending.
    pub fn in_use(&self) -> usize
        ensures { result ≡ in_use_total (items self.now) }
    {
        self.core.in_use_count()
    }

    /// How many connections are not established yet.
    pub fn pending(&self) -> usize
        ensures { result ≡ length (pending_list (items self.now)) }
    {
        self.core.pending_count()
    }

    /// How many callers wait in the queue.
    pub fn waiting(&self) -> usize
        ensures { result ≡ length (waiting (items self.now)) }
    {
        self.core.waiting_count()
    }

    /// The timer that changes something at the moment; the expiry comes before the maintenance.
    pub fn timer_at(&self, moment: Moment) -> Option<Timer>
        ensures { result ≡ timer_at self.now.options moment (items self.now) }
    {
        self.core.timer_at(moment)
    }

    /// The first moment from the given one on at which a timer changes something, unless another step comes before.
    pub fn next_due(&self, moment: Moment) -> Option<Moment>
        ensures { result ≡ next_due self.now.options moment (items self.now) }
    {
        self.core.next_due(moment)
    }
}

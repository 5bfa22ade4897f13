//! What a session tells of the pools of its driver, and of its watchers.

ghost use Rattle.std.specs.Prelude.{◌≡◌, ◌<◌, List, IfSome, IfNone, length};
ghost use Rattle.mdb_log.specs.Connections.{available_list};
ghost use Rattle.mdb_log.specs.History.{Item, PoolItem, of_pool};
ghost use Rattle.mdb_log.specs.declared.options.PoolOptions.{PoolOptions};
ghost use Rattle.mdb_pool.specs.Standing.{Fits, StandsIn};
ghost use Rattle.mdb_session.specs.Pools.{driver_pool_numbers, pool_numbers_in, state_number, watchers_after, HasOpened, IsGoneAfter};

use crate::fact_numbers::flag_number;
use crate::session::Session;
use mdb_pool::{PoolCore, PoolState};

/// What a pool of a driver has.
#[repr(C)]
#[derive(Clone, Copy, Debug, PartialEq, Eq)]
pub struct DriverPoolNumbers {
    /// How often it was cleared as a whole (CMAP, "Generation").
    pub generation: u64,
    /// How many connections nobody has.
    pub available: u64,
    /// Whether it may be used, from 1: it is new, ready, paused or closed.
    pub state: u32,
    /// Whether a pending connection waits for a worker.
    pub has_job: u32,
}

fn state_number(state: PoolState) -> u32
    ensures { result ≡ state_number state }
{
    match state {
        PoolState::New => 1,
        PoolState::Ready => 2,
        PoolState::Paused => 3,
        PoolState::Closed => 4,
    }
}

// How many connections of the pool nobody has.
fn available_count(pool: &PoolCore) -> usize
    ensures { (xs : List PoolItem) → Fits pool.now xs → result ≡ length (available_list xs) }
{
    pool.available().len()
}

fn numbers_of(pool: &PoolCore) -> DriverPoolNumbers
    ensures { (h : List Item) → StandsIn pool.now h → result ≡ pool_numbers_in pool.now.options h pool.now.pool }
{
    DriverPoolNumbers {
        generation: pool.generation(None),
        available: available_count(pool) as u64,
        state: state_number(pool.state()),
        has_job: flag_number(pool.has_job()),
    }
}

impl Session {
    /// The numbers of the pool, and `None` where there is none of this number, or it was closed and nothing of it lives: no connection, and no request that is open.
    pub fn pool(&self, number: u32) -> Option<DriverPoolNumbers>
        ensures some { IfSome result (λ told. told ≡ driver_pool_numbers self.now number) }
        ensures opened { IfSome result (λ told. HasOpened self.now number) }
        ensures none { IfNone result (IsGoneAfter self.now number) }
    {
        match self.core.pool(number) {
            Some(pool) => Some(numbers_of(pool)),
            None => None,
        }
    }

    /// How many watchers want the servers checked at once (SDAM monitoring, "Requesting an immediate check").
    pub fn watchers(&self) -> u64
        ensures { result ≡ watchers_after self.now }
    {
        self.core.check_count()
    }
}

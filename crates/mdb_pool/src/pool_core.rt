//! The core of one pool.
#![tactic(auto, unfolding(crate::specs::Now::queries))]

ghost use Rattle.std.specs.Prelude.{◌≡◌, true, false, is_some, nat_lt, option_copied, None, List, if◌then◌else◌, ◌&&◌};

use crate::kept::body::Body;
use crate::kept::connections::Connections;
use crate::kept::draft::Draft;
use crate::kept::requests::Requests;
use crate::kept::status::Status;
use crate::{PoolOptions, PoolState};
use mdb_base::{Error, ServerAddress};
use mdb_slots::{SlotTable, UndoCell};
use std::alloc::Global;
use std::marker::Model;

/// The connections and the requests of one server's pool. Steps are taken one at a time by `step`, or by the call of an act, in place; either leaves
/// the pool as it was where there is no memory. Clauses see its number, its address, its options, and what it keeps as one value, which they name by queries alone.
#[derive(Drop)]
pub struct PoolCore {
    pub(crate) draft: Draft,
}

impl Model for PoolCore {
    ghost use Rattle.std.specs.Prelude.{◌≡◌};
    ghost use Rattle.mdb_pool.specs.Kept.Body.{pool_of};
    ghost use Rattle.mdb_pool.specs.Core.{PoolCore};
    ghost use Rattle.mdb_pool.specs.Standing.{StandsForSome};

    ghost Value = { PoolCore };

    ghost view = { λ p. p.draft };

    ghost invariant = { λ p. (p.draft ≡ pool_of p.draft.kept.inner) × StandsForSome p.draft };
}

impl PoolCore {
    ghost use Rattle.mdb_pool.specs.Now.{alone_now, cause_of, is_spent, name_of};
    ghost use Rattle.mdb_pool.specs.Refusing.{can_tell};
    ghost use Rattle.mdb_log.specs.Connections.{has, held, pins, is_live, pending_list, holding, wire_of};
    ghost use Rattle.mdb_log.specs.Requests.{is_open};
    ghost use Rattle.mdb_log.specs.State.{state_of};
    ghost use Rattle.mdb_pool.specs.Standing.{Fits, StandsFor, StandsForSome, StandsIn};
    ghost use Rattle.mdb_pool_rules.specs.Available.{available_records};
    ghost use Rattle.mdb_slots.specs.Items.{records_of};
    ghost use Rattle.mdb_slots.specs.Slots.{listing};
    ghost use Rattle.mdb_log.specs.Legal.{NoneLeftWaiting};
    ghost use Rattle.mdb_log.specs.Limits.{WithinLimits};
    ghost use Rattle.mdb_log.specs.History.{Item, PoolItem, has_asked, has_party, of_pool, opening};

    // A pool that was just made, and keeps the numbers of its parties where it stands alone.
    fn made(
        alloc: Global,
        pool: u32,
        address: ServerAddress,
        options: PoolOptions,
        alone: bool,
    ) -> PoolCore
        ensures stands { StandsFor result (opening pool address options) }
        ensures none_left { NoneLeftWaiting options (of_pool pool (opening pool address options)) }
        ensures within { WithinLimits options (of_pool pool (opening pool address options)) }
        ensures pool { result.pool ≡ pool }
        ensures address { result.address ≡ address }
        ensures options { result.options ≡ options }
        ensures alone { alone_now result ≡ alone }
    {
        PoolCore {
            draft: Draft {
                body: Body {
                    pool,
                    address,
                    options,
                    last: UndoCell::new(0),
                    connections: Connections::new(alloc),
                    requests: Requests::new(alloc, alone),
                    status: UndoCell::new(Status::at_first(options.load_balanced)),
                },
            },
        }
    }

    /// A pool that was just made: a load-balanced one is ready, a normal one new. Its sizes are at most 65,535. It stands alone, and keeps the number of each party that it knew.
    pub fn new(alloc: Global, pool: u32, address: ServerAddress, options: PoolOptions) -> PoolCore
        ensures stands { StandsFor result (opening pool address options) }
        ensures none_left { NoneLeftWaiting options (of_pool pool (opening pool address options)) }
        ensures within { WithinLimits options (of_pool pool (opening pool address options)) }
        ensures pool { result.pool ≡ pool }
        ensures address { result.address ≡ address }
        ensures options { result.options ≡ options }
        ensures alone { alone_now result ≡ true }
    {
        PoolCore::made(alloc, pool, address, options, true)
    }

    /// A pool that was just made and is one of a driver's: a load-balanced one is ready, a normal one new. The driver keeps the numbers of all parties, so the pool is to be asked only by parties that are new to it.
    pub fn new_in_driver(
        alloc: Global,
        pool: u32,
        address: ServerAddress,
        options: PoolOptions,
    ) -> PoolCore
        ensures stands { StandsFor result (opening pool address options) }
        ensures none_left { NoneLeftWaiting options (of_pool pool (opening pool address options)) }
        ensures within { WithinLimits options (of_pool pool (opening pool address options)) }
        ensures pool { result.pool ≡ pool }
        ensures address { result.address ≡ address }
        ensures options { result.options ≡ options }
        ensures alone { alone_now result ≡ false }
    {
        PoolCore::made(alloc, pool, address, options, false)
    }

    /// The pool stands for some history of its own, so that what the other calls tell for all items that it fits is told of it. It does nothing.
    pub fn stands(&self)
        ensures { StandsForSome self.now }
    {
        let _ = &self.draft;
    }

    /// It keeps the number of each party that it knew, as a pool does that is in no driver.
    pub fn is_alone(&self) -> bool
        ensures { result ≡ alone_now self.now }
    {
        self.draft.body.requests.is_alone()
    }

    /// The number of the pool.
    pub fn number(&self) -> u32
        ensures { result ≡ self.now.pool }
    {
        self.draft.body.pool
    }

    /// The address that the pool serves.
    pub fn address(&self) -> &ServerAddress
        ensures { result.now ≡ self.now.address }
    {
        &self.draft.body.address
    }

    /// Whether the pool may be used.
    pub fn state(&self) -> PoolState
        ensures { (xs : List PoolItem) → Fits self.now xs → result ≡ name_of (state_of self.now.options xs) }
    {
        match self.draft.body.status.get() {
            Status::New => PoolState::New,
            Status::Ready => PoolState::Ready,
            Status::Paused(_) => PoolState::Paused,
            Status::Closed => PoolState::Closed,
        }
    }

    /// Why the pool is paused, `None` where it is not.
    pub fn cause(&self) -> Option<&Error>
        ensures { (xs : List PoolItem) → Fits self.now xs → option_copied result ≡ cause_of (state_of self.now.options xs) }
    {
        match self.draft.body.status.get() {
            Status::Paused(cause) => Some(cause),
            _ => None,
        }
    }

    /// The connection that the party holds.
    pub fn held_by(&self, party: u32) -> Option<u32>
        ensures { (xs : List PoolItem) → Fits self.now xs → result ≡ holding xs party }
    {
        self.draft.body.held_by(party)
    }

    /// The party asked this pool, or took a pinned connection of it. A pool that stands alone can tell; one of a driver keeps no numbers.
    pub fn knows(&self, party: u32) -> bool
        requires { can_tell self.now party ≡ true }
        ensures { (xs : List PoolItem) → Fits self.now xs → result ≡ has_party xs party }
    {
        self.draft.body.knows(party)
    }

    /// The party holds a connection of this pool.
    pub fn holds(&self, party: u32) -> bool
        ensures { (xs : List PoolItem) → Fits self.now xs → result ≡ is_some (holding xs party) }
    {
        self.draft.body.holds(party)
    }

    /// It is closed and nothing of it lives: it has no connection, and each of its requests was told how it ended, and returned what it held.
    pub fn is_spent(&self) -> bool
        ensures { result ≡ is_spent self.now }
    {
        self.draft.body.is_spent()
    }

    /// The request was made at this pool, its outcome was not told yet, and its caller neither gave up nor returned the connection.
    pub fn is_open(&self, request: u32) -> bool
        ensures { (h : List Item) → StandsIn self.now h → result ≡ has_asked (of_pool self.now.pool h) request && is_open h request }
    {
        self.draft.body.is_open(request)
    }

    /// The connections that nobody has, in the order in which they became available, each with its service and the moment since then. It takes no memory.
    pub fn available(&self) -> &SlotTable
        ensures { (xs : List PoolItem) → Fits self.now xs → records_of (listing result.now).items ≡ available_records xs }
    {
        self.draft.available()
    }

    /// The connection isn't established yet.
    pub fn is_pending(&self, id: u32) -> bool
        ensures { (xs : List PoolItem) → Fits self.now xs → result ≡ has id (pending_list xs) }
    {
        self.draft.body.is_pending(id)
    }

    /// The connection is one of this pool, and a party has it since it was established.
    pub fn is_held(&self, id: u32) -> bool
        ensures { (xs : List PoolItem) → Fits self.now xs → result ≡ nat_lt 0 (held xs id) }
    {
        self.draft.body.is_held(id)
    }

    /// The connection is one of this pool and has a pin.
    pub fn has_pin(&self, id: u32) -> bool
        ensures { (xs : List PoolItem) → Fits self.now xs → result ≡ nat_lt 0 (pins xs id) }
    {
        self.draft.body.has_pin(id)
    }

    /// The wire version that the connection was established with, `None` where it was not, or isn't live.
    pub fn wire_version(&self, id: u32) -> Option<i32>
        ensures { (xs : List PoolItem) → Fits self.now xs → result ≡ if is_live xs id then wire_of xs id else None }
    {
        self.draft.body.wire_version(id)
    }
}

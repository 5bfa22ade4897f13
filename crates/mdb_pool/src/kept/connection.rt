//! The connections that a pool keeps.

ghost use Rattle.std.specs.Prelude.{◌≡◌};

use crate::Use;
use mdb_base::{Moment, ObjectId};
use mdb_slots::{Keyed, Record, Sided};

/// Where a connection is.
#[derive(Clone, Copy)]
pub enum Place {
    /// It isn't established yet.
    Pending,
    /// It is back in the pool and can be granted.
    Available,
    /// Its holder has it.
    Held,
    /// At its pin: whoever held it gave it back, and a pin stands.
    Pinned,
}

/// A connection of a pool.
#[derive(Clone, Copy)]
pub struct Connection {
    /// Its number in the pool, from 1.
    pub id: u32,
    /// Its wire version, known once it is established.
    pub wire: Option<i32>,
    /// The party to which it was granted last; none where it was created in the background.
    pub party: Option<u32>,
    /// Who has it, or will have it once it is established; none while it is available, and none once its party gave up.
    pub holder: Option<u32>,
    /// When it was created, in milliseconds.
    pub created_at: u64,
    /// The moment at which it became available, where it is.
    pub since: Moment,
    /// How many pins stand, with no limit but the type's.
    pub pins: u64,
    /// How many clears by a network timeout the pool had when it was granted, taken or unpinned last.
    pub timeouts: usize,
    /// Where it is.
    pub place: Place,
    /// How it was used last.
    pub used: Use,
    /// Some return of it told of an error.
    pub errored: bool,
    /// Behind a load balancer, its service, known once it is established.
    pub service: Option<ObjectId>,
}

impl Connection {
    ghost use Rattle.std.specs.Prelude.{is_some, ◌&&◌, ◌==◌};
    ghost use Rattle.mdb_pool.specs.Kept.Places.{is_available, is_pending, is_held, is_at_pin, stays};
    ghost use Rattle.mdb_pool.specs.Acts.Changes.{pending_for};

    /// A new connection, for a party or in the background.
    pub(crate) fn pending(
        id: u32,
        moment: Moment,
        party: Option<u32>,
        timeouts: usize,
    ) -> Connection
        ensures { result ≡ pending_for id moment party timeouts }
    {
        Connection {
            id,
            created_at: moment,
            place: Place::Pending,
            party,
            holder: party,
            service: None,
            wire: None,
            since: moment,
            pins: 0,
            used: Use::Ok,
            errored: false,
            timeouts,
        }
    }

    /// It can be granted.
    pub(crate) fn is_available(&self) -> bool
        ensures { result ≡ is_available self.now.place }
    {
        matches!(self.place, Place::Available)
    }

    /// It isn't established yet.
    pub(crate) fn is_pending(&self) -> bool
        ensures { result ≡ is_pending self.now.place }
    {
        matches!(self.place, Place::Pending)
    }

    /// It was granted to a party.
    pub(crate) fn has_party(&self) -> bool
        ensures { result ≡ is_some self.now.party }
    {
        self.party.is_some()
    }

    /// A party has it.
    pub(crate) fn is_held(&self) -> bool
        ensures { result ≡ is_held self.now.place }
    {
        matches!(self.place, Place::Held)
    }

    /// Nobody has it, and a pin stands.
    pub(crate) fn is_at_pin(&self) -> bool
        ensures { result ≡ is_at_pin self.now.place }
    {
        matches!(self.place, Place::Pinned)
    }

    /// It is at its pin, and has this one alone.
    pub(crate) fn is_at_last_pin(&self) -> bool
        ensures { result ≡ is_at_pin self.now.place && (self.now.pins == 1) }
    {
        self.is_at_pin() && self.pins == 1
    }

    /// It stays where it is when its pool is closed.
    pub(crate) fn stays(&self) -> bool
        ensures { result ≡ stays self.now.place }
    {
        self.is_held() || self.is_at_pin()
    }
}

impl Keyed for Connection {
    ghost key = { λ x. x.id };

    fn key(&self) -> u32 {
        self.id
    }
}

// The available connections stand on the left, and the pending ones on the right.
impl Sided for Connection {
    ghost use Rattle.mdb_pool.specs.Kept.Places.{is_available, is_pending};

    ghost service = { λ x. x.service };

    ghost since = { λ x. x.since };

    ghost on_left = { λ x. is_available x.place };

    ghost on_right = { λ x. is_pending x.place };

    fn record(&self) -> Record {
        Record {
            id: self.id,
            service: self.service,
            since: self.since,
        }
    }

    fn on_left(&self) -> bool {
        self.is_available()
    }

    fn on_right(&self) -> bool {
        self.is_pending()
    }
}

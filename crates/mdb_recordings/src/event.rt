//! What a driver's listener is told of its pools (CMAP, "Connection Pool Monitoring").

ghost use Rattle.std.specs.Prelude.{◌≡◌};
ghost use Rattle.mdb_recordings.specs.Events.{begins, clears, closes_in_open, closes_pool, closes_stale, turns_ready, creates_one, readies_one, closes_one, checks_out_one, checks_in_one, id_of, uses_one, goes_on, needs_pool, starts_one, ends_check_out, ends_wait, serves};

/// The options with which a pool was created.
#[derive(Clone, Copy, Debug)]
pub struct Limits {
    /// The most connections; 0 for no limit.
    pub max_size: u64,
    /// The most connections that are pending at once; 0 where that is not told.
    pub max_connecting: u64,
    /// How long a connection may stay idle, in milliseconds; 0 for no limit.
    pub max_idle: u64,
    /// The pool is behind a load balancer.
    pub is_load_balanced: bool,
}

/// Why a connection was closed.
#[derive(Clone, Copy, Debug)]
pub enum CloseReason {
    Idle,
    Stale,
    Error,
    PoolClosed,
    Untold,
}

/// Why a check-out failed.
#[derive(Clone, Copy, Debug)]
pub enum FailReason {
    Timeout,
    ConnectionError,
    PoolClosed,
    Untold,
}

/// What an event tells of its pool. A connection is named by its id.
#[derive(Clone, Copy, Debug)]
pub enum Told {
    PoolCreated(Limits),
    PoolReady,
    /// Whether all connections were cleared, and not those to one service behind a load balancer.
    PoolCleared(bool),
    PoolClosed,
    ConnectionCreated(u64),
    ConnectionReady(u64),
    ConnectionClosed(u64, CloseReason),
    CheckOutStarted,
    CheckOutFailed(FailReason),
    CheckedOut(u64),
    CheckedIn(u64),
}

/// What an event tells, and when it came, in microseconds, and which check-out it concerns, where it says so.
#[derive(Clone, Copy, Debug)]
pub struct Event {
    pub at: Option<u64>,
    /// The number of the check-out, which a driver's wrapper gives it.
    pub caller: Option<u64>,
    pub told: Told,
}

/// An event, the number of the address of its pool, and the number of the line that tells it.
#[derive(Clone, Copy, Debug)]
pub struct Recorded {
    pub pool: u32,
    pub line: u64,
    pub event: Event,
}

impl Told {
    /// The connection that it names.
    pub fn id(&self) -> Option<u64>
        ensures { result ≡ id_of self.now }
    {
        match self {
            Told::ConnectionCreated(id)
            | Told::ConnectionReady(id)
            | Told::ConnectionClosed(id, _)
            | Told::CheckedOut(id)
            | Told::CheckedIn(id) => Some(*id),
            _ => None,
        }
    }

    /// A pool begins.
    pub fn begins(&self) -> bool
        ensures { result ≡ begins self.now }
    {
        matches!(self, Told::PoolCreated(_))
    }

    // It is nothing that a closed pool does.
    pub(crate) fn needs_pool(&self) -> bool
        ensures { result ≡ needs_pool self.now }
    {
        matches!(
            self,
            Told::PoolReady | Told::PoolCleared(_) | Told::PoolClosed | Told::ConnectionCreated(_)
        )
    }

    pub(crate) fn turns_ready(&self) -> bool
        ensures { result ≡ turns_ready self.now }
    {
        matches!(self, Told::PoolReady)
    }

    // All connections are cleared.
    pub(crate) fn clears(&self) -> bool
        ensures { result ≡ clears self.now }
    {
        matches!(self, Told::PoolCleared(true))
    }

    pub(crate) fn closes_pool(&self) -> bool
        ensures { result ≡ closes_pool self.now }
    {
        matches!(self, Told::PoolClosed)
    }

    pub(crate) fn closes_stale(&self) -> bool
        ensures { result ≡ closes_stale self.now }
    {
        matches!(self, Told::ConnectionClosed(_, CloseReason::Stale))
    }

    // It closes a connection for another reason than the end of its pool.
    pub(crate) fn closes_in_open(&self) -> bool
        ensures { result ≡ closes_in_open self.now }
    {
        match self {
            Told::ConnectionClosed(_, reason) => !matches!(reason, CloseReason::PoolClosed),
            _ => false,
        }
    }

    pub(crate) fn creates(&self) -> bool
        ensures { result ≡ creates_one self.now }
    {
        matches!(self, Told::ConnectionCreated(_))
    }

    pub(crate) fn readies(&self) -> bool
        ensures { result ≡ readies_one self.now }
    {
        matches!(self, Told::ConnectionReady(_))
    }

    pub(crate) fn closes(&self) -> bool
        ensures { result ≡ closes_one self.now }
    {
        matches!(self, Told::ConnectionClosed(_, _))
    }

    pub(crate) fn checks_out(&self) -> bool
        ensures { result ≡ checks_out_one self.now }
    {
        matches!(self, Told::CheckedOut(_))
    }

    pub(crate) fn checks_in(&self) -> bool
        ensures { result ≡ checks_in_one self.now }
    {
        matches!(self, Told::CheckedIn(_))
    }

    pub(crate) fn starts(&self) -> bool
        ensures { result ≡ starts_one self.now }
    {
        matches!(self, Told::CheckOutStarted)
    }

    // It ends the wait of a check-out: it is served, or fails.
    pub(crate) fn ends_wait(&self) -> bool
        ensures { result ≡ ends_wait self.now }
    {
        matches!(
            self,
            Told::CheckedOut(_) | Told::ConnectionCreated(_) | Told::CheckOutFailed(_)
        )
    }

    // It ends a check-out: it gets a connection, or fails.
    pub(crate) fn ends_check_out(&self) -> bool
        ensures { result ≡ ends_check_out self.now }
    {
        matches!(self, Told::CheckedOut(_) | Told::CheckOutFailed(_))
    }

    // It serves a check-out: it gets a connection, or one is created for it.
    pub(crate) fn serves(&self) -> bool
        ensures { result ≡ serves self.now }
    {
        matches!(self, Told::CheckedOut(_) | Told::ConnectionCreated(_))
    }

    // It uses a connection, which has to be created before.
    pub(crate) fn uses(&self) -> bool
        ensures { result ≡ uses_one self.now }
    {
        matches!(
            self,
            Told::ConnectionReady(_)
                | Told::ConnectionClosed(_, _)
                | Told::CheckedOut(_)
                | Told::CheckedIn(_)
        )
    }

    // It is nothing that a closed connection does.
    pub(crate) fn goes_on(&self) -> bool
        ensures { result ≡ goes_on self.now }
    {
        matches!(
            self,
            Told::ConnectionReady(_) | Told::CheckedOut(_) | Told::CheckedIn(_)
        )
    }
}

//! What an entry of a printed log shows.

use mdb_base::{Error, Items, ObjectId, ServerAddress, Text};
use mdb_events::{CmapEvent, End};
use mdb_log::{Reply, Step};

/// A fact as it is printed: of an event of a server or of the topology there is the text alone.
#[derive(Debug, Drop)]
pub enum ShownFact {
    /// A pool of this number was opened at the address.
    Opened(u32, ServerAddress),
    /// The pool made this event.
    Pool(u32, CmapEvent),
    /// The party, the pool and the connection that was granted to it.
    Granted(u32, u32, u32),
    /// The request ended.
    Ended(u32, End),
    /// The generation of the pool, or of one service behind it, was raised by this cause.
    Raised(u32, Option<ObjectId>, Error),
    /// The text of an event of a server or of the topology.
    Sdam(Text),
    /// The monitor of the address should check now.
    CheckNow(ServerAddress),
    /// The check of the address that runs should be cancelled.
    Cancel(ServerAddress),
}

/// One entry of a printed log.
#[derive(Debug, Drop)]
pub struct Shown {
    pub step: Step,
    pub reply: Reply,
    pub facts: Items<ShownFact>,
}

/// Why a line gives no entry: it is no entry's text, or there was no memory.
#[derive(Clone, Copy, Debug, PartialEq, Eq)]
pub enum ShownError {
    Bad,
    OutOfMemory,
}

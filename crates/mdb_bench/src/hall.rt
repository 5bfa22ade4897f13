//! What the threads of one driver share beside it.

use crate::plan::Plan;
use mdb_workers::StartBarrier;
use std::sync::atomic::{AtomicU64, Ordering};

/// The parts that are to begin, the clients that have not left yet, the connections that were checked out and in, and the entries that were taken.
#[derive(Drop)]
pub struct Hall {
    pub plan: Plan,
    pub start: StartBarrier,
    clients: AtomicU64,
    returned: AtomicU64,
    taken: AtomicU64,
}

impl Hall {
    /// A hall for so many parts, of which those beyond two are clients.
    pub fn new(plan: Plan, parts: u32) -> Hall {
        Hall {
            plan,
            start: StartBarrier::new(parts),
            clients: AtomicU64::new(parts.saturating_sub(2) as u64),
            returned: AtomicU64::new(0),
            taken: AtomicU64::new(0),
        }
    }

    /// A client has left.
    pub fn leave(&self) {
        self.clients.fetch_sub(1, Ordering::SeqCst);
    }

    /// All clients have left.
    pub fn is_empty(&self) -> bool {
        self.clients.load(Ordering::SeqCst) == 0
    }

    /// A connection was checked out and in.
    pub fn note_returned(&self) {
        self.returned.fetch_add(1, Ordering::SeqCst);
    }

    /// How many connections were checked out and in.
    pub fn returned(&self) -> u64 {
        self.returned.load(Ordering::SeqCst)
    }

    /// So many entries were taken by now.
    pub fn note_taken(&self, count: u64) {
        self.taken.store(count, Ordering::SeqCst);
    }

    /// How many entries were taken.
    pub fn taken(&self) -> u64 {
        self.taken.load(Ordering::SeqCst)
    }
}

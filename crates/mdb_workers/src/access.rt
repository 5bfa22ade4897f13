//! What the calls of a seat need beside it.

use mdb_log::Core;
use mdb_shared::SharedDriver;
use std::alloc::Global;

/// A driver, the runtime by which one waits for it, and the allocator for its steps. All calls of a seat take one.
#[derive(Drop)]
pub struct Access<'a, C: Core, R> {
    pub driver: &'a SharedDriver<C>,
    pub rt: &'a R,
    pub alloc: Global,
}

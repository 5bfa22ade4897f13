//! What a step or a fact says, by the numbers of parties, pools and connections in this order.

/// What an accepted step or a fact says of parties, connections and pools.
#[derive(Clone, Copy)]
pub enum Occurrence {
    /// It says nothing of these.
    Nothing,
    /// A party asked the pool that is open at its address, if one is; the last tells whether it only fills the pool.
    Asked(u32, Option<u32>, bool),
    GivenUp(u32),
    Returned(u32),
    Pinned(u32),
    Replicated(u32, u32),
    Taken(u32, u32, u32),
    Unpinned(u32, u32),
    Established(u32, u32),
    Failed(u32, u32),
    Opened(u32),
    /// The pool was created.
    Began(u32),
    /// The pool may be used, or may not.
    Turned(u32, bool),
    Created(u32, u32),
    Closed(u32, u32),
    CheckedIn(u32, u32),
    Granted(u32, u32, u32),
    Ended(u32),
}

/// What a party did that concerns each connection which it was given.
#[derive(Clone, Copy)]
pub enum How {
    GaveBack,
    /// Its request ended.
    Over,
}

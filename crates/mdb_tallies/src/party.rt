//! What was read of one party.

/// Marks of a party.
#[derive(Clone, Copy)]
pub struct Party {
    pub is_asked: bool,
    /// The pool that its first step asked.
    pub pool: Option<u32>,
    pub is_warm: bool,
    pub is_granted: bool,
    pub is_ended: bool,
    pub is_returned: bool,
}

/// How a party was given a connection.
#[derive(Clone, Copy)]
pub struct Gift {
    pub is_granted: bool,
    pub is_taken: bool,
}

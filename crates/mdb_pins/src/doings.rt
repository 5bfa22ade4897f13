//! What was read of the pins of one party.

/// How often a party pinned what it has, and gave up.
#[derive(Clone, Copy, Debug)]
pub struct Doings {
    pub pins: u64,
    pub give_ups: u64,
    /// How often it had pinned by its last give-up.
    pub pins_then: u64,
}

//! What is called before each line of a player.

/// A call before each line, made by the worker of the player, which has no turn then. Lines are counted from 1 after the one that opens.
pub trait LineGate: Sync {
    fn before(&self, player: u32, line: u32);
}

/// A gate that does nothing.
pub struct NoGate;

impl LineGate for NoGate {
    fn before(&self, _part: u32, _line: u32) {}
}

//! What an audit comes to.

use mdb_judging::Why;

/// A legal log with so many entries, or the number of the first entry at fault, and why.
#[derive(Clone, Copy, Debug, PartialEq, Eq)]
pub enum Verdict {
    Legal(u32),
    Bad(u32, Why),
}

//! Lists that only clauses see: what was let go from memory, and what they still speak of.
#![tactic(auto)]

mod past;

pub use past::{Past, Tells};

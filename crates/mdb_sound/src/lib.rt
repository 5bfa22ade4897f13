//! Laws of the whole history of one pool, each by a name: what holds of every list of items in which each item may come after those before it, and that every pool keeps its history so.
#![tactic(auto)]

pub mod cores;
pub mod histories;

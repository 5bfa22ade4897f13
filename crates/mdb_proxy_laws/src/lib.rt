//! Laws of proxies: that asks are handed on once, over any core, and that over a driver nobody waits because another holds connections.
#![tactic(auto)]

pub mod asks;
pub mod runs;
pub mod waiting;

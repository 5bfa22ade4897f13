//! The smallest driver: a running total.
#![tactic(auto)]

mod total;

pub use total::Total;

//! Failover is right whatever a network does: the laws of runs of a replica set before a driver, over every list of events.
#![tactic(auto)]

pub mod laws;

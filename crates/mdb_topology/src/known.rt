//! What is known of the topology: its rules, what a change of it tells, and which pools it readies, closes and opens.

pub mod changing;
pub mod naming;
pub mod repeating;
pub mod rules;
pub mod telling_changes;
pub mod topology_acts;

//! The worker over all pools of one driver: what it knows of its servers, and what it answers to each step.
#![tactic(auto)]

mod driver;
mod driver_core;
mod entering;
mod errors;
mod handshake;
mod knowing;
mod known;
mod monitors;
mod opening_seeds;
mod stepping;
mod topology;
mod transition;
mod updater;

pub use driver::Driver;
pub use handshake::HandshakePhase;
pub use known::changing::MAX_SERVERS;
pub use mdb_driver_pools::is_ready_type;
pub use topology::TopologyCore;

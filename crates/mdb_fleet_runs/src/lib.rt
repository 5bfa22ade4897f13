//! Runs of a made-up replica set that fails over before a driver: what a network delivers late, twice or never, and what the
//! driver then describes.
#![tactic(auto)]

mod answers;
mod event;
mod event_reading;
mod harness;
mod run;
mod shown;

pub use answers::FleetAnswer;
pub use event::{Event, FleetAct};
pub use event_reading::{read_count, read_event};
pub use harness::Harness;
pub use run::run_fleet;

//! What an auditor of logs keeps of pins: how many there are of each connection, and which connections stand at theirs.
//!
//! A party that keeps many connections pins all of them by one step. So a party's pins are counted with the party, and a
//! connection has only what its keepers had made before they took it, and what is left of those that keep it no more.
#![tactic(auto)]

mod doings;
mod keepings;
mod laws;
mod numbered;
mod pins;
mod story;
mod walk;

pub use doings::Doings;
pub use keepings::Keepings;
pub use laws::pins_follow_histories;
pub use numbered::Numbered;
pub use pins::Pins;
pub use story::PinStory;

//! One script that several threads run: each does its share of the lines on a seat of its own, and all entries stand in one legal log.
#![tactic(auto)]

mod gate;
mod lines;
mod opening;
mod player;
mod players;
mod program;
mod shared;

pub use gate::LineGate;
pub use program::run_program;
pub use shared::{run_gated, run_shared};

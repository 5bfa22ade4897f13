//! Why a line is not in the grammar of scripts: the column, the word there, and what could stand in its place.
#![tactic(auto)]

mod bytes;
mod errors;
mod misspelling;
mod open;
mod parts;
mod reason;
mod slots;
mod steps;
mod tails;
mod words;

pub use misspelling::nearest;
pub use reason::{Reason, why_refused};

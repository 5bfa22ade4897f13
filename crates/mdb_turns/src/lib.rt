//! The turn of a shared driver: the rule of the atomic words that hold it, the seats that may take it, and what a seat does while it has the turn.
#![tactic(auto)]

mod records;
mod rule;
mod try_error;
mod turn;

pub use records::Records;
pub use rule::{
    Absorb, Add, Beginning, Copied, LoadCount, Lock, Number, Release, SeatEntries, Slot, TableSeat,
    TakeTurn, Turns, View,
};
pub use try_error::TryError;
pub use turn::{begin_step, finish, give_back, one_step, take};

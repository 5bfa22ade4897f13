//! A made-up replica set as numbers, which a program in C keeps.
#![tactic(auto)]

mod fleet;
mod member_numbers;
mod replies;

pub use fleet::{begin, elect, reconfigure, step_down};
pub use member_numbers::MemberNumbers;
pub use replies::reply;

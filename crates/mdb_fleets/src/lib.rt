//! A made-up replica set, for tests of failover: its members hold elections and answer hellos, and their replies stay on a
//! wire from which they can be delivered late, twice or never.
#![tactic(auto)]

mod fleet;
mod link;
mod member;
mod replies;

pub use fleet::Fleet;
pub use link::{FleetLink, greet};
pub use member::{Member, Sent, member_address};
pub use replies::reply_of;

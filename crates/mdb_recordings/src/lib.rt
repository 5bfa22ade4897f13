//! What the events of a driver's pools show: the rules that they break, judged in one pass.
#![tactic(auto)]

mod caller;
mod callers;
mod connection;
mod connection_lines;
mod connections;
mod event;
mod facts;
mod former;
mod glance;
mod judge;
mod pool_lines;
mod pools;
mod rule;
mod standard;
mod turns;

pub use caller::Caller;
pub use connection::Connection;
pub use connection_lines::ConnectionLines;
pub use event::{CloseReason, Event, FailReason, Limits, Recorded, Told};
pub use facts::Facts;
pub use former::Former;
pub use glance::Glance;
pub use judge::Judge;
pub use pool_lines::PoolLines;
pub use rule::{Rule, against, breaks, has_rule};
pub use standard::Standard;
pub use turns::Turns;

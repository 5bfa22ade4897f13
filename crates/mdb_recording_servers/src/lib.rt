//! What the events of a driver's servers and of its topology show: the rules that they break, judged in one pass.
#![tactic(auto)]

mod event;
mod judge;
mod known;
mod rule;
mod server;
mod server_lines;
mod servers;
mod topology;
mod topology_lines;

pub use event::{Seen, ServerEvent, ServerKind, ServerTold};
pub use judge::ServerJudge;
pub use known::Known;
pub use rule::{ServerRule, against, breaks};
pub use server::Server;
pub use server_lines::ServerLines;
pub use topology::Topology;
pub use topology_lines::TopologyLines;

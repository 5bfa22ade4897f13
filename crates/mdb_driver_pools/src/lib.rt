//! The pools of one driver: which of them a step concerns, what it plans in them, and how plans are made. What is known of the topology, and its monitors, stand above.
#![tactic(auto)]

mod acting;
mod applying;
mod asking;
mod clearing;
mod cores;
mod failing;
mod finding;
mod hints;
mod opening;
mod opening_server;
mod placed;
mod planning;
mod pool_change;
mod pool_decision;
mod pool_options;
pub mod pool_queries;
mod pools;
mod publishing;
mod readiness;
mod readying;
mod removing;
mod sdam_facts;
mod topology_change;
mod trouble;

pub use acting::is_pool_act;
pub use cores::Cores;
pub use opening::{Opening, open};
pub use pool_change::PoolChange;
pub use pool_decision::PoolDecision;
pub use pools::Pools;
pub use readiness::is_ready_type;
pub use sdam_facts::{sdam_fact, tell_event};
pub use topology_change::TopologyChange;
pub use trouble::{Asked, PoolTrouble, ask};

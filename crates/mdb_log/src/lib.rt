//! What a log is and says: steps, replies, entries, the trait that a driver's core keeps, and in specs/ the histories
//! with all queries over them, legality and limits.
#![tactic(auto)]

mod checked;
mod driver;
mod generation;
mod job;
mod log;
mod options;
mod pooled;
mod reply;
mod step;
mod whole;

pub use checked::{BeatenResult, HelloResult};
pub use driver::Core;
pub use generation::{ConnectionGeneration, LoadBalancedGeneration, PoolGeneration, PoolStamp};
pub use job::Job;
pub use log::{Entry, Log};
pub use options::{DEFAULT_MAX_CONNECTING, DEFAULT_MAX_POOL_SIZE, PoolOptions};
pub use pooled::{PinnedConnectionHandle, PooledConnection};
pub use reply::{Refused, Reply, What};
pub use step::{Act, Established, FailedAt, Step, Use};
pub use whole::step_whole;

//! What threads with a role do at their seat of a shared driver: they establish connections, keep time, fill pools, wait for news, or report what was left at
//! lack of memory. Beside it single calls of a driver, with what each adds to the entries of its seat, and a barrier at which all threads begin, or none.
#![tactic(auto)]

mod access;
mod ends;
mod establishing;
mod filling;
mod listening;
mod memory_establisher;
mod persisting;
mod serving;
mod start_barrier;
mod steps;
mod ticking;
mod working;

pub use access::Access;
pub use ends::{Work, WorkError};
pub use establishing::{Call, EstablishError, Establisher, Gate, OpenGate};
pub use filling::{Fill, fill_pool};
pub use listening::{Jobs, Woken, next_job, next_news};
pub use memory_establisher::MemEstablisher;
pub use persisting::{Unreturned, abandon, hand_back, report_left, stop, tend};
pub use serving::serve;
pub use start_barrier::StartBarrier;
pub use steps::{add, ask, give_back, glance, let_go, pause, rest};
pub use ticking::{Timer, keep_time, keep_time_by, tick};
pub use working::work;

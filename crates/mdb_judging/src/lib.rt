//! An auditor of the entries of a log: whether the log is legal with each next entry, and else why not.
#![tactic(auto)]

mod auditor;
mod grants;
mod homes;
mod leftovers;
mod newest;
mod opening;
mod queues;
mod reading;
mod touched;
mod why;

pub use auditor::Auditor;
pub use why::Why;

//! The steps of a pool: what refuses one, what it answers, and that its changes stay or go.

pub mod committing;
pub mod entering;
pub mod queue;
pub mod reasons;
pub mod refusing;
pub mod stepping;

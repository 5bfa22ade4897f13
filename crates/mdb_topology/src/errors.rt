//! Errors of connections and of operations: which are current, and which server one marks.

pub mod complaining;
pub mod erring;
pub mod failed_checks;
pub mod failing;
pub mod marked;
pub mod marking;
pub mod spending;

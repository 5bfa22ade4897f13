//! The monitors of a driver, and their checks.

pub mod check_acts;
pub mod checks_ahead;
pub mod ended_checks;
pub mod monitor_acts;
pub mod monitor_list;
pub mod monitoring;
pub mod watched;

//! The monitor of one server: its checks, what it learns from each, and what it does next (SDAM, "Server Monitoring").
#![tactic(auto)]

mod beginning;
mod cancel;
mod check;
mod check_count;
mod constants;
mod ending;
mod knowledge;
mod mode;
mod monitor;
mod raw_reply;
mod rtt;

pub use cancel::CancellationReason;
pub use check::{Action, Begin, CheckResult, Finish, Next, Report};
pub use check_count::CheckCount;
pub use constants::{DEFAULT_HEARTBEAT_FREQUENCY, MIN_HEARTBEAT_FREQUENCY};
pub use mode::{ServerMonitoringMode, allow_streaming};
pub use monitor::MonitorCore;
pub use rtt::RttInfo;

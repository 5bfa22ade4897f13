//! The lines of a recording: JSON objects that tell the events of a driver's pools and servers.
#![tactic(auto)]

mod event_name;
mod fields;
mod line;
mod names;
mod number;
mod reasons;
mod server_line;
mod server_names;

pub use line::{Line, read_line};
pub use names::Names;

//! Entries of a shared driver that are taken from time to time, so that the driver keeps none of them, and handed on: each once, in order.
#![tactic(auto)]

mod delivery;
mod handling;
mod log_writer;
mod recorder;

pub use delivery::{Delivery, Never};
pub use handling::EntryHandler;
pub use log_writer::{LogWriter, WriteError};
pub use recorder::{RecordError, Recorder};

//! That the text of each log that a run returns shows its entries, and what the auditor says of it.
#![tactic(auto)]

mod laws;
mod moments;
mod plain_answers;
mod shows;
mod types;

pub use laws::{run_logs_are_legal, shared_logs_are_legal};
pub use plain_answers::answers_are_plain;
pub use shows::text_shows_log;
pub use types::log_types;

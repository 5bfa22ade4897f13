//! The lines of a script, the text of a log, and the loops that read and write them.
#![tactic(auto)]

mod caller_lines;
mod connection_lines;
mod ending;
mod entry_text;
mod error_lines;
mod line_kind;
mod line_reading;
mod line_text;
mod monitor_lines;
mod open_line;
mod open_text;
mod outcome_text;
mod outcomes;
mod pin_lines;
mod process_words;
mod reading_loop;
mod rules;
mod run_error;
mod shapes;
mod status;
mod topology_lines;
mod topology_text;
mod types;
mod use_word;
mod writing_loop;

pub use ending::{end_run, end_with_error};
pub use entry_text::{ReplyText, log_text, write_entry};
pub use line_reading::read_line;
pub use line_text::write_line;
pub use mdb_parts::LineError;
pub use process_words::command_words;
pub use reading_loop::{MAX_INPUT, cut_line, read_all};
pub use rules::is_printable;
pub use run_error::{RunError, Status, status_of};
pub use status::{tell_error, tell_usage};
pub use writing_loop::write_all;

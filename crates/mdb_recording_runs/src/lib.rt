//! The judge of recordings: it reads the events of a driver's pools and servers to their end, and tells which rules they break.
#![tactic(auto)]

mod findings;
mod reader;
mod rule_words;
mod server_findings;
mod text;
mod tool;
mod verdict;

pub use rule_words::{
    all_rules, all_server_rules, rule_section, rule_word, server_rule_section, server_rule_word,
};
pub use text::{Report, judge};
pub use tool::{MAX_RECORDING, run_recorded};
pub use verdict::Verdict;

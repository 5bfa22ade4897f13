//! An auditor of printed logs: whether the text of a log is legal, and else which entry is at fault and why.
#![tactic(auto)]

mod laws;
mod text;
mod tool;
mod verdict;

pub use laws::{legal_logs_have_legal_texts, texts_have_one_verdict};
pub use mdb_judging::Why;
pub use text::{MAX_LOG, audit};
pub use tool::run_audit;
pub use verdict::Verdict;

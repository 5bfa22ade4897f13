//! The lines of a proxy script: the shares on the first, and from the third on the steps that they spell and the answers that are written.
#![tactic(auto)]

mod line_reading;
mod line_writing;
mod shares_line;

pub use line_reading::read_proxy_line;
pub use line_writing::{answer_line, opening_line};
pub use shares_line::read_shares;

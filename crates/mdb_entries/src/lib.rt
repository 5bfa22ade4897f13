//! Reading the entries of printed logs.
#![tactic(auto)]

mod entry_reading;
mod entry_text;
mod fact_kind;
mod fact_rules;
mod fact_text;
mod facts;
mod laws;
mod pieces;
mod places;
mod refusals;
mod replies;
mod reply_kind;
mod reply_rules;
mod shown;

pub use entry_reading::read_entry;
pub use entry_text::write_shown;
pub use laws::{lines_show_one_entry, log_shows_its_entries};
pub use reply_rules::reply_types;
pub use shown::{Shown, ShownError, ShownFact};

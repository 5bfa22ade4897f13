//! The log of a driver that runs for long: its oldest entries are handed out and let go, while contracts see all of them.
#![tactic(auto)]

mod journal;
mod newest;
mod news;

pub use journal::{Journal, Kept, Taken};
pub use news::is_news;

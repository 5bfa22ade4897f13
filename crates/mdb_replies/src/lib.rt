//! The fields of a reply to a hello, as they stand in a script's line.
#![tactic(auto)]

mod groups;
mod list_text;
mod reply_reading;
mod reply_rules;
mod reply_text;
mod tags;
mod value_parts;
mod value_rules;
mod value_text;

pub use reply_reading::reply;
pub use reply_rules::{is_reply, reply_types};
pub use reply_text::ReplyText;

//! Scripts of any length, made by a rule; what a log came to, in numbers; and the words that ask for them.
#![tactic(auto)]

mod script;
mod summary;
mod words;

pub use script::make_script;
pub use summary::{Kind, Summary};
pub use words::{ToolCommand, read_words};

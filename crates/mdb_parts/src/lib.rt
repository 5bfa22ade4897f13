//! The parts of a script's lines: words, numbers, addresses and optional parts, as they are read and written.
#![tactic(auto)]

mod error_reading;
mod error_rules;
pub mod fields;
mod line_error;
pub mod number_types;
pub mod part_text;
pub mod parts;
pub mod texts;
pub mod values;
pub mod word_rule;
pub mod words;

pub use error_reading::{error, version_part};
pub use error_rules::{error_types, is_error, is_optional_version, version_types};
pub use line_error::LineError;

//! BSON 1.1: the documents of commands and replies, as bytes.
#![tactic(auto)]

mod document;
mod fault;
mod front;
mod kind;
mod making;
mod plain;
mod reading;
mod text;

pub use fault::{BsonError, Fault};
pub use reading::{MAX_DEPTH, MAX_LENGTH, read};

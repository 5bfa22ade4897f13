//! What a pool keeps, and what it finds there.

pub mod body;
pub mod claims;
pub mod clear_counts;
pub mod clears;
pub mod connection;
pub mod connections;
pub mod counts;
pub mod draft;
pub mod draft_reads;
pub mod dues;
pub mod finding;
pub mod marks;
pub mod request;
pub mod request_parts;
pub mod requests;
pub mod status;
pub mod waiting;

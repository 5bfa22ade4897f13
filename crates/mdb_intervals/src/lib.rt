//! Sets of numbers that take memory by their gaps.
#![tactic(auto)]

mod span;
mod spans;

pub use span::Span;
pub use spans::Spans;

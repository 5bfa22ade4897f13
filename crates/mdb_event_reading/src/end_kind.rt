//! Which end of a request it is.

ghost use Rattle.std.specs.Prelude.{◌≡◌};
ghost use Rattle.mdb_event_reading.specs.EndForms.{end_kind};

/// The ends of requests, by their names.
#[derive(Clone, Copy, Debug, PartialEq, Eq)]
pub enum EndKind {
    Cleared,
    Failed,
    Closed,
    Warmed,
    Filled,
    GaveUp,
    TimedOut,
}

/// The end of this name.
#[tactic(auto, unfolding(crate::specs::EndForms::end_kind))]
pub fn end_kind(word: &str) -> Option<EndKind>
    ensures { result ≡ end_kind word.now }
{
    if word == "Cleared" {
        Some(EndKind::Cleared)
    } else if word == "Failed" {
        Some(EndKind::Failed)
    } else if word == "Closed" {
        Some(EndKind::Closed)
    } else if word == "Warmed" {
        Some(EndKind::Warmed)
    } else if word == "Filled" {
        Some(EndKind::Filled)
    } else if word == "GaveUp" {
        Some(EndKind::GaveUp)
    } else if word == "TimedOut" {
        Some(EndKind::TimedOut)
    } else {
        None
    }
}

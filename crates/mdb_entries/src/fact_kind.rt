//! Which fact it is.

ghost use Rattle.std.specs.Prelude.{◌≡◌};
ghost use Rattle.mdb_entries.specs.FactForms.{fact_kind, pool_kind, other_kind};

/// The facts, by their names.
#[derive(Clone, Copy, Debug, PartialEq, Eq)]
pub enum FactKind {
    Opened,
    Pool,
    Granted,
    Ended,
    Raised,
    Sdam,
    CheckNow,
    Cancel,
}

#[tactic(auto, unfolding(crate::specs::FactForms::pool_kind))]
fn pool_kind(word: &str) -> Option<FactKind>
    ensures { result ≡ pool_kind word.now }
{
    if word == "Opened" {
        Some(FactKind::Opened)
    } else if word == "Pool" {
        Some(FactKind::Pool)
    } else if word == "Granted" {
        Some(FactKind::Granted)
    } else if word == "Ended" {
        Some(FactKind::Ended)
    } else if word == "Raised" {
        Some(FactKind::Raised)
    } else {
        None
    }
}

#[tactic(auto, unfolding(crate::specs::FactForms::other_kind))]
fn other_kind(word: &str) -> Option<FactKind>
    ensures { result ≡ other_kind word.now }
{
    if word == "Sdam" {
        Some(FactKind::Sdam)
    } else if word == "CheckNow" {
        Some(FactKind::CheckNow)
    } else if word == "Cancel" {
        Some(FactKind::Cancel)
    } else {
        None
    }
}

/// The fact of this name.
#[tactic(auto, unfolding(crate::specs::FactForms::fact_kind))]
pub fn fact_kind(word: &str) -> Option<FactKind>
    ensures { result ≡ fact_kind word.now }
{
    pool_kind(word).or(other_kind(word))
}

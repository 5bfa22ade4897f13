//! Which event of a server or of the topology it is.

ghost use Rattle.std.specs.Prelude.{◌≡◌};
ghost use Rattle.mdb_event_reading.specs.SdamForms.{sdam_kind, change_kind, beat_kind};

/// The events of servers and of the topology, by their names.
#[derive(Clone, Copy, Debug, PartialEq, Eq)]
pub enum SdamKind {
    ServerChanged,
    ServerOpening,
    ServerClosed,
    TopologyChanged,
    TopologyOpening,
    TopologyClosed,
    Started,
    Succeeded,
    Failed,
}

#[tactic(auto, unfolding(crate::specs::SdamForms::change_kind))]
fn change_kind(word: &str) -> Option<SdamKind>
    ensures { result ≡ change_kind word.now }
{
    if word == "ServerDescriptionChanged" {
        Some(SdamKind::ServerChanged)
    } else if word == "ServerOpening" {
        Some(SdamKind::ServerOpening)
    } else if word == "ServerClosed" {
        Some(SdamKind::ServerClosed)
    } else if word == "TopologyDescriptionChanged" {
        Some(SdamKind::TopologyChanged)
    } else if word == "TopologyOpening" {
        Some(SdamKind::TopologyOpening)
    } else if word == "TopologyClosed" {
        Some(SdamKind::TopologyClosed)
    } else {
        None
    }
}

#[tactic(auto, unfolding(crate::specs::SdamForms::beat_kind))]
fn beat_kind(word: &str) -> Option<SdamKind>
    ensures { result ≡ beat_kind word.now }
{
    if word == "ServerHeartbeatStarted" {
        Some(SdamKind::Started)
    } else if word == "ServerHeartbeatSucceeded" {
        Some(SdamKind::Succeeded)
    } else if word == "ServerHeartbeatFailed" {
        Some(SdamKind::Failed)
    } else {
        None
    }
}

/// The event of this name.
#[tactic(auto, unfolding(crate::specs::SdamForms::sdam_kind))]
pub fn sdam_kind(word: &str) -> Option<SdamKind>
    ensures { result ≡ sdam_kind word.now }
{
    change_kind(word).or(beat_kind(word))
}

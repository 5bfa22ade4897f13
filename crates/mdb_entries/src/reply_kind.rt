//! Which reply it is.

ghost use Rattle.std.specs.Prelude.{◌≡◌};
ghost use Rattle.mdb_entries.specs.Replies.{reply_kind, request_kind, other_kind};

/// The replies, by their names.
#[derive(Clone, Copy, Debug, PartialEq, Eq)]
pub enum ReplyKind {
    Pooled,
    Establishing,
    Waiting,
    Ended,
    Job,
    NoJob,
    Changed,
    Count,
    Done,
    Refused,
}

#[tactic(auto, unfolding(crate::specs::Replies::request_kind))]
fn request_kind(word: &str) -> Option<ReplyKind>
    ensures { result ≡ request_kind word.now }
{
    if word == "Pooled" {
        Some(ReplyKind::Pooled)
    } else if word == "Establishing" {
        Some(ReplyKind::Establishing)
    } else if word == "Waiting" {
        Some(ReplyKind::Waiting)
    } else if word == "Ended" {
        Some(ReplyKind::Ended)
    } else {
        None
    }
}

#[tactic(auto, unfolding(crate::specs::Replies::other_kind))]
fn other_kind(word: &str) -> Option<ReplyKind>
    ensures { result ≡ other_kind word.now }
{
    if word == "Job" {
        Some(ReplyKind::Job)
    } else if word == "NoJob" {
        Some(ReplyKind::NoJob)
    } else if word == "Changed" {
        Some(ReplyKind::Changed)
    } else if word == "Count" {
        Some(ReplyKind::Count)
    } else if word == "Done" {
        Some(ReplyKind::Done)
    } else if word == "Refused" {
        Some(ReplyKind::Refused)
    } else {
        None
    }
}

/// The reply of this name.
#[tactic(auto, unfolding(crate::specs::Replies::reply_kind))]
pub fn reply_kind(word: &str) -> Option<ReplyKind>
    ensures { result ≡ reply_kind word.now }
{
    request_kind(word).or(other_kind(word))
}

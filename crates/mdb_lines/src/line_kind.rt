//! Which kind of line it is.

ghost use Rattle.std.specs.Prelude.{◌≡◌};
ghost use Rattle.mdb_lines.specs.Forms.{kind_of, caller_kind, connection_kind, monitor_kind, topology_kind};

/// The kinds of lines, by their first word.
#[derive(Clone, Copy, Debug, PartialEq, Eq)]
pub enum LineKind {
    Open,
    Request,
    Warm,
    Collect,
    Claim,
    GiveUp,
    Established,
    Failed,
    Return,
    Error,
    Pin,
    Replicate,
    Take,
    Unpin,
    Maintain,
    Expire,
    Hello,
    Beat,
    Beaten,
    Rtt,
    Hosts,
    ClusterTime,
    Want,
    Unwant,
    Stop,
}

#[tactic(auto, unfolding(crate::specs::Forms::caller_kind))]
fn caller_kind(word: &str) -> Option<LineKind>
    ensures { result ≡ caller_kind word.now }
{
    if word == "request" {
        Some(LineKind::Request)
    } else if word == "warm" {
        Some(LineKind::Warm)
    } else if word == "collect" {
        Some(LineKind::Collect)
    } else if word == "claim" {
        Some(LineKind::Claim)
    } else if word == "giveup" {
        Some(LineKind::GiveUp)
    } else if word == "return" {
        Some(LineKind::Return)
    } else if word == "error" {
        Some(LineKind::Error)
    } else {
        None
    }
}

#[tactic(auto, unfolding(crate::specs::Forms::connection_kind))]
fn connection_kind(word: &str) -> Option<LineKind>
    ensures { result ≡ connection_kind word.now }
{
    if word == "established" {
        Some(LineKind::Established)
    } else if word == "failed" {
        Some(LineKind::Failed)
    } else if word == "pin" {
        Some(LineKind::Pin)
    } else if word == "replicate" {
        Some(LineKind::Replicate)
    } else if word == "take" {
        Some(LineKind::Take)
    } else if word == "unpin" {
        Some(LineKind::Unpin)
    } else {
        None
    }
}

#[tactic(auto, unfolding(crate::specs::Forms::monitor_kind))]
fn monitor_kind(word: &str) -> Option<LineKind>
    ensures { result ≡ monitor_kind word.now }
{
    if word == "hello" {
        Some(LineKind::Hello)
    } else if word == "beat" {
        Some(LineKind::Beat)
    } else if word == "beaten" {
        Some(LineKind::Beaten)
    } else if word == "rtt" {
        Some(LineKind::Rtt)
    } else {
        None
    }
}

#[tactic(auto, unfolding(crate::specs::Forms::topology_kind))]
fn topology_kind(word: &str) -> Option<LineKind>
    ensures { result ≡ topology_kind word.now }
{
    if word == "hosts" {
        Some(LineKind::Hosts)
    } else if word == "ctime" {
        Some(LineKind::ClusterTime)
    } else if word == "want" {
        Some(LineKind::Want)
    } else if word == "unwant" {
        Some(LineKind::Unwant)
    } else if word == "stop" {
        Some(LineKind::Stop)
    } else {
        None
    }
}

/// The kind of line that begins with this word.
#[tactic(auto, unfolding(crate::specs::Forms::kind_of))]
pub(crate) fn kind_of(word: &str) -> Option<LineKind>
    ensures { result ≡ kind_of word.now }
{
    if word == "open" {
        Some(LineKind::Open)
    } else if word == "maintain" {
        Some(LineKind::Maintain)
    } else if word == "expire" {
        Some(LineKind::Expire)
    } else {
        let of_pools = caller_kind(word).or(connection_kind(word));
        of_pools.or(monitor_kind(word).or(topology_kind(word)))
    }
}

//! The rules, in the order in which they are told, and their words.

ghost use Rattle.std.specs.Prelude.{◌≡◌};
ghost use Rattle.mdb_recording_runs.specs.RuleWords.{all_rules, all_server_rules, rule_section, rule_word, server_rule_section, server_rule_word};

use mdb_recording_servers::ServerRule;
use mdb_recordings::Rule;

const RULES: [Rule; 26] = [
    Rule::PoolCreatedTwice,
    Rule::PoolNotCreated,
    Rule::PoolIsClosed,
    Rule::PoolReadiedTwice,
    Rule::ClearedWhilePaused,
    Rule::LeftInPool,
    Rule::PoolNotReady,
    Rule::CreatedWhilePaused,
    Rule::CreatedTwice,
    Rule::NotCreated,
    Rule::ReadiedTwice,
    Rule::NotReadied,
    Rule::OutTwice,
    Rule::NotOut,
    Rule::ClosedTwice,
    Rule::IsClosed,
    Rule::ClosedWhileOut,
    Rule::ClosedInUse,
    Rule::NotCleared,
    Rule::IsStale,
    Rule::IsIdle,
    Rule::TooMany,
    Rule::TooManyPending,
    Rule::NotStarted,
    Rule::HasNoReason,
    Rule::OutOfTurn,
];

const SERVER_RULES: [ServerRule; 8] = [
    ServerRule::OpenedTwice,
    ServerRule::NotOpen,
    ServerRule::FromDiffers,
    ServerRule::NotChecked,
    ServerRule::CheckedTwice,
    ServerRule::HasNoCause,
    ServerRule::OpenedLate,
    ServerRule::IsClosed,
];

/// All rules of pools.
pub fn all_rules() -> &'static [Rule]
    ensures { result.now ≡ all_rules }
{
    &RULES
}

/// The word of a rule of pools: how it is broken.
pub fn rule_word(rule: Rule) -> &'static str
    ensures { result.now ≡ rule_word rule }
{
    match rule {
        Rule::PoolCreatedTwice => "pool-created-twice",
        Rule::PoolNotCreated => "pool-not-created",
        Rule::PoolIsClosed => "pool-is-closed",
        Rule::PoolReadiedTwice => "pool-ready-twice",
        Rule::ClearedWhilePaused => "cleared-while-paused",
        Rule::LeftInPool => "left-in-pool",
        Rule::PoolNotReady => "pool-not-ready",
        Rule::CreatedWhilePaused => "created-while-paused",
        Rule::CreatedTwice => "created-twice",
        Rule::NotCreated => "not-created",
        Rule::ReadiedTwice => "ready-twice",
        Rule::NotReadied => "not-ready",
        Rule::OutTwice => "checked-out-twice",
        Rule::NotOut => "not-checked-out",
        Rule::ClosedTwice => "closed-twice",
        Rule::IsClosed => "is-closed",
        Rule::ClosedWhileOut | Rule::ClosedInUse => "closed-while-out",
        Rule::NotCleared => "not-cleared",
        Rule::IsStale => "stale",
        Rule::IsIdle => "idle",
        Rule::TooMany => "too-many",
        Rule::TooManyPending => "too-many-pending",
        Rule::NotStarted => "not-started",
        Rule::HasNoReason => "no-reason",
        Rule::OutOfTurn => "out-of-turn",
    }
}

/// The section of the standard that a rule of pools comes from, by its heading in CMAP.
pub fn rule_section(rule: Rule) -> &'static str
    ensures { result.now ≡ rule_section rule }
{
    match rule {
        Rule::PoolCreatedTwice | Rule::PoolNotCreated => "CMAP, Creating a Connection Pool",
        Rule::PoolIsClosed | Rule::LeftInPool => "CMAP, Closing a Connection Pool",
        Rule::PoolReadiedTwice => "CMAP, Marking a Connection Pool as Ready",
        Rule::ClearedWhilePaused | Rule::ClosedInUse | Rule::NotCleared =>
            "CMAP, Clearing a Connection Pool",
        Rule::PoolNotReady
        | Rule::NotReadied
        | Rule::OutTwice
        | Rule::IsStale
        | Rule::IsIdle
        | Rule::NotStarted => "CMAP, Checking Out a Connection",
        Rule::CreatedWhilePaused => "CMAP, Connection Pool Members",
        Rule::CreatedTwice | Rule::NotCreated => "CMAP, Creating a Connection",
        Rule::ReadiedTwice => "CMAP, Establishing a Connection",
        Rule::NotOut => "CMAP, Checking In a Connection",
        Rule::ClosedTwice | Rule::IsClosed | Rule::ClosedWhileOut => "CMAP, Closing a Connection",
        Rule::TooMany | Rule::TooManyPending => "CMAP, Connection Pool Options",
        Rule::HasNoReason => "CMAP, Events",
        Rule::OutOfTurn => "CMAP, WaitQueue",
    }
}

/// All rules of servers and of the topology.
pub fn all_server_rules() -> &'static [ServerRule]
    ensures { result.now ≡ all_server_rules }
{
    &SERVER_RULES
}

/// The word of a rule of servers or of the topology: how it is broken.
pub fn server_rule_word(rule: ServerRule) -> &'static str
    ensures { result.now ≡ server_rule_word rule }
{
    match rule {
        ServerRule::OpenedTwice => "server-opened-twice",
        ServerRule::NotOpen => "server-not-open",
        ServerRule::FromDiffers => "from-differs",
        ServerRule::NotChecked => "no-check",
        ServerRule::CheckedTwice => "checked-twice",
        ServerRule::HasNoCause => "no-cause",
        ServerRule::OpenedLate => "topology-opened-late",
        ServerRule::IsClosed => "topology-is-closed",
    }
}

/// The section of the standard that a rule of servers or of the topology comes from, by its heading in SDAM Monitoring.
pub fn server_rule_section(rule: ServerRule) -> &'static str
    ensures { result.now ≡ server_rule_section rule }
{
    match rule {
        ServerRule::OpenedTwice
        | ServerRule::NotOpen
        | ServerRule::FromDiffers
        | ServerRule::HasNoCause
        | ServerRule::OpenedLate
        | ServerRule::IsClosed => "SDAM Monitoring, Events",
        ServerRule::NotChecked | ServerRule::CheckedTwice => "SDAM Monitoring, Heartbeats",
    }
}

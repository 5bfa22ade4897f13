//! The rules that a driver's pools keep, and when an event breaks one.

ghost use Rattle.std.specs.Prelude.{◌≡◌, ◌==◌, ◌-◌, List};
ghost use Rattle.mdb_recordings.specs.Lives.{waiting};
ghost use Rattle.mdb_recordings.specs.Rules.{against, breaks, contradicted, fails_unfounded, glance_of, has_rule, is_broken, is_connection_broken, is_first, is_passed, is_past, is_paused, is_pool_broken, is_seen, is_unfounded, is_unstarted, may_be_cleared, may_be_former, pending};
ghost use Rattle.mdb_recordings.specs.declared.event.Recorded.{Recorded as Event_};

use crate::caller::Caller;
use crate::connection::Connection;
use crate::event::{Event, FailReason, Recorded, Told};
use crate::facts::{Facts, hands_out, live};
use crate::former::Former;
use crate::glance::Glance;
use crate::standard::Standard;
use crate::turns::Turns;

/// A rule of a driver's pools, named by how it is broken.
#[derive(Clone, Copy, Debug)]
pub enum Rule {
    PoolCreatedTwice,
    PoolNotCreated,
    PoolIsClosed,
    PoolReadiedTwice,
    ClearedWhilePaused,
    LeftInPool,
    PoolNotReady,
    CreatedWhilePaused,
    CreatedTwice,
    NotCreated,
    ReadiedTwice,
    NotReadied,
    OutTwice,
    NotOut,
    ClosedTwice,
    IsClosed,
    ClosedWhileOut,
    ClosedInUse,
    NotCleared,
    IsStale,
    IsIdle,
    TooMany,
    TooManyPending,
    NotStarted,
    HasNoReason,
    OutOfTurn,
}

fn pending(facts: &Facts) -> u64
    ensures { result ≡ pending facts.now }
{
    facts
        .created
        .saturating_sub(facts.readied)
        .saturating_sub(facts.dropped)
}

fn is_past(most: u64, since: Option<u64>, now: Option<u64>) -> bool
    ensures { result ≡ is_past most since now }
{
    match (since, now) {
        (Some(since), Some(now)) => {
            0 < most && u128::from(most) * 1000 < u128::from(now.saturating_sub(since))
        }
        _ => false,
    }
}

// The connection was not handed out yet, and its pool was not paused since it became ready.
fn is_first(facts: &Facts, connection: &Connection) -> bool
    ensures { result ≡ is_first facts.now connection.now }
{
    !connection.was_out && facts.pauses <= connection.readied_after
}

fn is_unfounded(reason: FailReason, former: &Former, facts: &Facts) -> bool
    ensures { result ≡ is_unfounded reason former.now facts.now }
{
    match reason {
        FailReason::Timeout => false,
        FailReason::PoolClosed => !(former.is_closed || facts.is_closed),
        FailReason::ConnectionError => {
            !former.is_closed && (hands_out(facts) && (!facts.has_error && !(0 < facts.clears)))
        }
        FailReason::Untold => true,
    }
}

fn fails_unfounded(told: &Told, former: &Former, facts: &Facts) -> bool
    ensures { result ≡ fails_unfounded told.now former.now facts.now }
{
    match told {
        Told::CheckOutFailed(reason) => is_unfounded(*reason, former, facts),
        _ => false,
    }
}

/// The standard at that time has the rule.
pub fn has_rule(standard: Standard, rule: Rule) -> bool
    ensures { result ≡ has_rule standard rule }
{
    match (standard, rule) {
        (Standard::Current, Rule::ClosedWhileOut) => false,
        (Standard::Of2021, Rule::ClosedInUse) => false,
        (Standard::Of2020, Rule::ClosedInUse) => false,
        (Standard::Of2020, Rule::PoolReadiedTwice) => false,
        (Standard::Of2020, Rule::ClearedWhilePaused) => false,
        (Standard::Of2020, Rule::PoolNotReady) => false,
        (Standard::Of2020, Rule::CreatedWhilePaused) => false,
        (Standard::Of2020, Rule::TooManyPending) => false,
        _ => true,
    }
}

// The pool was created, and is neither ready nor closed.
fn is_paused(facts: &Facts) -> bool
    ensures { result ≡ is_paused facts.now }
{
    facts.is_created && (!facts.is_closed && !hands_out(facts))
}

// The connection was created before its pool was cleared, or may have been.
fn may_be_cleared(facts: &Facts, connection: &Connection) -> bool
    ensures { result ≡ may_be_cleared facts.now connection.now }
{
    facts.has_service_clear || connection.generation < facts.clears
}

fn is_pool_broken(rule: Rule, f: &Facts, c: &Connection, e: &Event) -> bool
    ensures { result ≡ is_pool_broken rule f.now c.now e.now }
{
    let told = &e.told;
    match rule {
        Rule::PoolCreatedTwice => told.begins() && (f.is_created && !f.is_closed),
        Rule::PoolNotCreated => !told.begins() && !f.is_created,
        Rule::PoolIsClosed => {
            f.is_closed && (told.needs_pool() || (told.checks_out() && !is_first(f, c)))
        }
        Rule::PoolReadiedTwice => told.turns_ready() && f.is_ready,
        Rule::ClearedWhilePaused => told.clears() && is_paused(f),
        Rule::LeftInPool => told.closes_pool() && 0 < f.lying,
        Rule::PoolNotReady => {
            told.checks_out() && (!hands_out(f) && !(c.is_wanted && is_first(f, c)))
        }
        Rule::CreatedWhilePaused => told.creates() && is_paused(f),
        Rule::TooMany => {
            told.creates() && (0 < f.limits.max_size && f.limits.max_size <= live(f))
        }
        Rule::TooManyPending => {
            told.creates() && (0 < f.limits.max_connecting && f.limits.max_connecting <= pending(f))
        }
        _ => false,
    }
}

fn is_connection_broken(rule: Rule, f: &Facts, c: &Connection, e: &Event) -> bool
    ensures { result ≡ is_connection_broken rule f.now c.now e.now }
{
    let told = &e.told;
    match rule {
        Rule::CreatedTwice => told.creates() && c.is_created,
        Rule::NotCreated => told.uses() && !c.is_created,
        Rule::ReadiedTwice => told.readies() && c.is_readied,
        Rule::NotReadied => told.checks_out() && !c.is_readied,
        Rule::OutTwice => told.checks_out() && c.is_out,
        Rule::NotOut => told.checks_in() && !c.is_out,
        Rule::ClosedTwice => told.closes() && c.is_closed,
        Rule::IsClosed => told.goes_on() && (c.is_closed && !(told.checks_in() && c.is_out)),
        Rule::ClosedWhileOut => told.closes() && c.is_out,
        Rule::ClosedInUse => told.closes_in_open() && (c.is_out && !may_be_cleared(f, c)),
        Rule::NotCleared => told.closes_stale() && (c.is_created && !may_be_cleared(f, c)),
        Rule::IsStale => told.checks_out() && (c.generation < f.clears && !is_first(f, c)),
        Rule::IsIdle => told.checks_out() && is_past(f.limits.max_idle, c.rested_at, e.at),
        _ => false,
    }
}

fn is_broken(rule: Rule, f: &Facts, c: &Connection, e: &Event) -> bool
    ensures { result ≡ is_broken rule f.now c.now e.now }
{
    is_pool_broken(rule, f, c, e) || is_connection_broken(rule, f, c, e)
}

// Check-outs of the pool and of those before it that were started did all end.
fn all_ended(former: &Former, facts: &Facts) -> bool
    ensures { result ≡ (waiting facts.now former.now.waiting == 0) }
{
    let started = u128::from(former.waiting) + u128::from(facts.started);
    started <= u128::from(facts.outs) + u128::from(facts.failed)
}

fn is_unstarted(event: &Event, former: &Former, facts: &Facts, caller: &Caller) -> bool
    ensures { result ≡ is_unstarted event.now former.now facts.now caller.now }
{
    let is_over = event.caller.is_some() && (former.waiting == 0 && !caller.is_checking_out);
    event.told.ends_check_out() && (facts.is_created && (all_ended(former, facts) || is_over))
}

// The event ends the wait of the caller, and one that was started after it was served before.
fn is_passed(told: &Told, turns: &Turns, caller: &Caller) -> bool
    ensures { result ≡ is_passed told.now turns.now caller.now }
{
    told.ends_wait() && (caller.is_waiting && caller.place < turns.latest)
}

// The event may use a connection that a former pool at the address left open.
fn may_be_former(told: &Told, former: &Former) -> bool
    ensures { result ≡ may_be_former told.now former.now }
{
    told.uses() && 0 < former.left
}

fn is_seen(rule: Rule, known: &Glance, event: &Event) -> bool
    ensures { result ≡ is_seen rule known.now event.now }
{
    match rule {
        Rule::OutOfTurn => is_passed(&event.told, &known.turns, &known.caller),
        Rule::NotStarted => is_unstarted(event, &known.former, &known.facts, &known.caller),
        Rule::HasNoReason => fails_unfounded(&event.told, &known.former, &known.facts),
        _ => {
            !may_be_former(&event.told, &known.former)
                && is_broken(rule, &known.facts, &known.connection, event)
        }
    }
}

/// By the standard of that time the event breaks the rule, where so much is known before it.
pub fn breaks(standard: Standard, rule: Rule, known: &Glance, recorded: &Recorded) -> bool
    ensures { (h : List Event_) → known.now ≡ glance_of h recorded.now → result ≡ breaks standard rule h recorded.now }
{
    has_rule(standard, rule) && is_seen(rule, known, &recorded.event)
}

fn contradicted(rule: Rule, known: &Glance) -> Option<u64>
    ensures { result ≡ contradicted rule known.now }
{
    let pool = &known.facts.lines;
    let connection = &known.connection.lines;
    match rule {
        Rule::PoolCreatedTwice | Rule::TooMany | Rule::TooManyPending => pool.created,
        Rule::PoolIsClosed => pool.closed,
        Rule::PoolReadiedTwice => pool.readied,
        Rule::ClearedWhilePaused | Rule::PoolNotReady | Rule::CreatedWhilePaused => pool.stopped,
        Rule::IsStale => pool.cleared,
        Rule::CreatedTwice | Rule::NotReadied | Rule::NotCleared => connection.created,
        Rule::ReadiedTwice => connection.readied,
        Rule::OutTwice | Rule::NotOut | Rule::ClosedWhileOut | Rule::ClosedInUse => {
            connection.moved
        }
        Rule::IsIdle => connection.rested,
        Rule::ClosedTwice | Rule::IsClosed => connection.closed,
        Rule::NotStarted => known.caller.ended,
        Rule::OutOfTurn => known.turns.latest_on,
        Rule::PoolNotCreated | Rule::LeftInPool | Rule::NotCreated | Rule::HasNoReason => None,
    }
}

/// The line of the event that an event contradicts which breaks the rule, where so much is known before it: none where something is missing, or where
/// many events come together.
pub fn against(rule: Rule, known: &Glance, recorded: &Recorded) -> Option<u64>
    ensures { (h : List Event_) → known.now ≡ glance_of h recorded.now → result ≡ against rule h recorded.now }
{
    let _event = &recorded.event;
    contradicted(rule, known)
}

//! The rules that a driver's servers and its topology keep, and when an event breaks one.

ghost use Rattle.std.specs.Prelude.{◌≡◌, List};
ghost use Rattle.mdb_recording_servers.specs.ServerRules.{against, breaks, contradicted, differs, is_broken, known_of};
ghost use Rattle.mdb_recording_servers.specs.declared.event.Seen.{Seen as Seen_};

use crate::event::{ServerEvent, ServerKind};
use crate::known::Known;

/// A rule of a driver's servers and its topology, named by how it is broken.
#[derive(Clone, Copy, Debug)]
pub enum ServerRule {
    OpenedTwice,
    NotOpen,
    FromDiffers,
    NotChecked,
    CheckedTwice,
    HasNoCause,
    OpenedLate,
    IsClosed,
}

fn differs(from: Option<ServerKind>, kind: Option<ServerKind>) -> bool
    ensures { result ≡ differs from kind }
{
    match (from, kind) {
        (Some(from), Some(kind)) => from.number() != kind.number(),
        _ => false,
    }
}

fn is_broken(rule: ServerRule, known: &Known, event: &ServerEvent) -> bool
    ensures { result ≡ is_broken rule known.now event.now }
{
    let server = &known.server;
    match rule {
        ServerRule::OpenedTwice => event.opens() && server.is_open,
        ServerRule::NotOpen => {
            (event.uses() || (event.starts_check() && known.topology.is_told)) && !server.is_open
        }
        ServerRule::FromDiffers => differs(event.from(), server.kind),
        ServerRule::NotChecked => event.ends_check() && server.checks == 0,
        ServerRule::CheckedTwice => {
            event.starts_check() && (known.topology.is_told && server.is_checked)
        }
        ServerRule::HasNoCause => {
            event.ends_change() && !(known.topology.had_cause || known.topology.has_move)
        }
        ServerRule::OpenedLate => event.opens_topology() && known.topology.is_begun,
        ServerRule::IsClosed => event.needs_topology() && known.topology.is_closed,
    }
}

/// The event breaks the rule, where so much is known before it.
pub fn breaks(rule: ServerRule, known: &Known, event: &ServerEvent) -> bool
    ensures { (h : List Seen_) → known.now ≡ known_of h event.now → result ≡ breaks rule h event.now }
{
    is_broken(rule, known, event)
}

fn contradicted(rule: ServerRule, known: &Known) -> Option<u64>
    ensures { result ≡ contradicted rule known.now }
{
    let server = &known.server.lines;
    let topology = &known.topology.lines;
    match rule {
        ServerRule::OpenedTwice => server.opened,
        ServerRule::NotOpen => server.closed,
        ServerRule::FromDiffers => server.kind_told,
        ServerRule::NotChecked => server.check_ended,
        ServerRule::CheckedTwice => server.check_started,
        ServerRule::HasNoCause => topology.changed,
        ServerRule::OpenedLate => topology.begun,
        ServerRule::IsClosed => topology.closed,
    }
}

/// The line of the event that an event contradicts which breaks the rule, where so much is known before it: none where something is missing.
pub fn against(rule: ServerRule, known: &Known, event: &ServerEvent) -> Option<u64>
    ensures { (h : List Seen_) → known.now ≡ known_of h event.now → result ≡ against rule h event.now }
{
    let _event = *event;
    contradicted(rule, known)
}

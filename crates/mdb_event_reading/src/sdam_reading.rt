//! Whether a text is that of an event.

ghost use Rattle.std.specs.Prelude.{◌≡◌, IfOk, true};
ghost use Rattle.mdb_event_reading.specs.declared.shown_sdam.ShownSdam.{ShownSdam};
ghost use Rattle.mdb_event_reading.specs.SdamTexts.{shown_sdam, IsShown, IsSdamText};
ghost use Rattle.mdb_event_reading.specs.SdamForms.{ReadsKind, ReadsNamed};
ghost use Rattle.mdb_parts.specs.Reading.{Gives};

use crate::beats::{failed, started, succeeded};
use crate::changes::{server_changed, server_closed, server_opening, topology_changed};
use crate::sdam_kind::{SdamKind, sdam_kind};
use crate::sdam_rules::{is_shown, shown_types};
use crate::shown_sdam::ShownSdam;
use mdb_base::{OutOfMemory, cut};
use mdb_parts::LineError;
use std::alloc::Global;

fn read_kind(alloc: Global, kind: SdamKind, text: &str) -> Result<ShownSdam, LineError>
    ensures { ReadsKind kind text.now result }
{
    match kind {
        SdamKind::ServerChanged => server_changed(alloc, text),
        SdamKind::ServerOpening => server_opening(alloc, text),
        SdamKind::ServerClosed => server_closed(alloc, text),
        SdamKind::TopologyChanged => topology_changed(text),
        SdamKind::TopologyOpening => Ok(ShownSdam::TopologyOpening),
        SdamKind::TopologyClosed => Ok(ShownSdam::TopologyClosed),
        SdamKind::Started => started(alloc, text),
        SdamKind::Succeeded => succeeded(alloc, text),
        SdamKind::Failed => failed(alloc, text),
    }
}

fn read_named(alloc: Global, text: &str) -> Result<ShownSdam, LineError>
    ensures { ReadsNamed text.now result }
{
    let (name, rest) = cut(text, ' ');
    match sdam_kind(name) {
        Some(kind) => read_kind(alloc, kind, rest),
        None => Err(LineError::Bad),
    }
}

fn read_sdam(alloc: Global, text: &str) -> Result<ShownSdam, LineError>
    ensures { (e : ShownSdam) → IsShown e → text.now ≡ shown_sdam e → Gives e result }
{
    read_named(alloc, text)
}

// Whether the text is that of this event.
fn is_text(alloc: Global, event: &ShownSdam, text: &str) -> Result<bool, OutOfMemory>
    ensures yes { IfOk result (λ so. so ≡ true → IsShown event.now × (text.now ≡ shown_sdam event.now)) }
    ensures no { IfOk result (λ so. IsShown event.now → text.now ≡ shown_sdam event.now → so ≡ true) }
{
    shown_types(event);
    let shown = event.to_string(alloc)?;
    Ok(is_shown(event) && shown.as_str() == text)
}

/// Whether the text is that of an event.
pub fn is_sdam(alloc: Global, text: &str) -> Result<bool, OutOfMemory>
    ensures yes { IfOk result (λ so. so ≡ true → IsSdamText text.now) }
    ensures no { IfOk result (λ so. IsSdamText text.now → so ≡ true) }
{
    match read_sdam(alloc, text) {
        Ok(event) => is_text(alloc, &event, text),
        Err(LineError::Bad) => Ok(false),
        Err(LineError::OutOfMemory) => Err(OutOfMemory),
    }
}

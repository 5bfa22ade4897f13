//! Which call a kind of case makes.

use crate::runs::Tool;
use crate::{again, meeting, recording, runs, scripts, shares};
use mdb_cases::Page;
use std::sync::Wait;
use std::thread::Threads;

// The cases of one thread. Of a script the lines so far are kept.
fn answer_alone(page: &mut Page, script: &mut String, kind: &str, given: &str) {
    match kind {
        "script" => scripts::begin(page, script, given),
        "then" => scripts::go_on(page, script, given),
        "run" => runs::tell(page, Tool::Script, given),
        "audit" => runs::tell(page, Tool::Audit, given),
        _ => page.put("malformed"),
    }
}

/// Puts on the page what the call of this kind answers. What runs in threads needs the runtime; no other case does.
pub fn answer<R: Threads + Wait + Sync>(
    rt: &R,
    page: &mut Page,
    script: &mut String,
    kind: &str,
    given: &str,
) {
    match kind {
        "again" => again::again(rt, page, given),
        "meeting" => meeting::meeting(rt, page, given),
        "recording" => recording::recording(rt, page, given),
        "share" => shares::share(rt, page, given),
        "alone" => shares::alone(rt, page, given),
        "gated" => shares::gated(rt, page, given),
        _ => answer_alone(page, script, kind, given),
    }
}

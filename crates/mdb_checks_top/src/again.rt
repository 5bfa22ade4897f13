//! Cases of mdb_shared_runs: the lines of a log that several parts made, run once more.

use crate::shares::{front, lines_of};
use mdb_base::{MemSink, PlainSource};
use mdb_cases::{Page, decoded, parted};
use mdb_runs::run_script;
use mdb_shared_runs::run_program;
use std::sync::Wait;
use std::thread::Threads;

// The lines of the script to which the entries of the log are the answers.
fn lines_again(page: &mut Page, taken: &[u8]) -> String {
    let entries = lines_of(page, str::from_utf8(taken).unwrap_or("malformed"));
    let mut text = page.string("");
    for entry in entries.as_slice() {
        page.add(&mut text, front(entry));
        page.add(&mut text, "\n");
    }
    text
}

// Whether the lines of the log, run one after another, write the log.
fn run_again(page: &mut Page, taken: &[u8], again: &mut MemSink) {
    let lines = lines_again(page, taken);
    let mut source = PlainSource::new(page.bytes(lines.as_str()));
    let is_run = run_script(page.alloc, &mut source, again).is_ok();
    page.answer(is_run && again.taken() == taken);
}

fn run_shared_once<R: Threads + Wait + Sync>(
    rt: &R,
    page: &mut Page,
    parts: &str,
    script: &str,
    sink: &mut MemSink,
    errors: &mut MemSink,
) -> bool {
    let mut source = PlainSource::new(page.bytes(script));
    let words = ["share", parts];
    run_program(rt, page.alloc, &words, &mut source, sink, errors) == 0
}

/// `again K script=TEXT`: whether the lines of the log that K parts made of the script write that log once more, where one thread runs them in
/// the log's order.
pub fn again<R: Threads + Wait + Sync>(rt: &R, page: &mut Page, given: &str) {
    let (parts, given) = parted(given);
    let (_, text) = given.split_once("script=").unwrap_or((given, ""));
    let script = decoded(page, text);
    let first = MemSink::new(page.alloc, 10_000, 1000, Vec::new(page.alloc));
    let second = MemSink::new(page.alloc, 10_000, 1000, Vec::new(page.alloc));
    let errors = MemSink::new(page.alloc, 100, 100, Vec::new(page.alloc));
    let (Ok(mut first), Ok(mut second), Ok(mut errors)) = (first, second, errors) else {
        return page.fail();
    };
    if run_shared_once(rt, page, parts, script.as_str(), &mut first, &mut errors) {
        run_again(page, first.taken(), &mut second);
    } else {
        page.put("not run");
    }
}

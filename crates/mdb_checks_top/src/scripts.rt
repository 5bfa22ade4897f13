//! Cases of mdb_runs: scripts line by line.

use crate::runs::put_lines;
use mdb_base::{MemSink, MemSource};
use mdb_cases::Page;
use mdb_runs::run_tool;

// What the last line of the log says behind the line of the script.
fn put_reply(page: &mut Page, line: &str, log: &str) {
    let log = log.strip_suffix('\n').unwrap_or("malformed");
    let (_, entry) = log.rsplit_once('\n').unwrap_or(("", log));
    match entry.strip_prefix(line) {
        Some(rest) => page.put(rest.strip_prefix(" | ").unwrap_or("malformed")),
        None => page.put("malformed"),
    }
}

fn put_end(page: &mut Page, status: u8, errors: &MemSink) {
    page.put("status ");
    page.show(&status);
    page.put(":");
    put_lines(page, errors.taken());
}

fn run(
    page: &mut Page,
    line: &str,
    source: &mut MemSource,
    sink: &mut MemSink,
    errors: &mut MemSink,
) {
    let status = run_tool(page.alloc, &[], source, sink, errors);
    if status == 0 {
        let log = str::from_utf8(sink.taken()).unwrap_or("malformed");
        put_reply(page, line, log);
    } else {
        put_end(page, status, errors);
    }
}

fn run_telling(page: &mut Page, line: &str, source: &mut MemSource, sink: &mut MemSink) {
    match MemSink::new(page.alloc, 100, 100, Vec::new(page.alloc)) {
        Ok(mut errors) => run(page, line, source, sink, &mut errors),
        Err(_) => page.fail(),
    }
}

fn run_writing(page: &mut Page, line: &str, source: &mut MemSource) {
    match MemSink::new(page.alloc, 20_000, 20_000, Vec::new(page.alloc)) {
        Ok(mut sink) => run_telling(page, line, source, &mut sink),
        Err(_) => page.fail(),
    }
}

/// `then LINE`: the script so far goes on with this line, and is run from its beginning. The answer is what the log says
/// of this line: its reply and its facts. Where the run ends before its end, it is the status and what was told.
pub fn go_on(page: &mut Page, script: &mut String, line: &str) {
    page.add(script, line);
    page.add(script, "\n");
    let held = page.bytes(script.as_str());
    let mut source = MemSource::new(held, 20_000, Vec::new(page.alloc));
    run_writing(page, line, &mut source);
}

/// `script LINE`: a script begins with this line, which is answered as those of `then`.
pub fn begin(page: &mut Page, script: &mut String, line: &str) {
    script.clear();
    go_on(page, script, line);
}

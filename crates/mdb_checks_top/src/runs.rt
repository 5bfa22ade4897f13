//! Cases of mdb_runs and mdb_audit: one run of a tool over memory.

use mdb_audit::run_audit;
use mdb_base::{MemSink, MemSource};
use mdb_cases::{Page, decoded, small, value_of};
use mdb_runs::run_tool;

/// What is run.
#[derive(Clone, Copy)]
pub enum Tool {
    Script,
    Audit,
}

// What the words say of a name, and what is usual where they say nothing.
fn limit(words: &str, name: &str, usual: usize) -> usize {
    match value_of(words, name) {
        "" => usual,
        word => small(word) as usize,
    }
}

/// A source of the script, which gives so many bytes at once and fails at these calls.
pub fn source(page: &mut Page, words: &str, script: &str) -> MemSource {
    let piece = limit(words, "reads", 1000).max(1);
    let fails = page.numbers(value_of(words, "unread"));
    MemSource::new(page.bytes(script), piece, fails)
}

// One piece, and how often it stands.
fn put_piece(page: &mut Page, piece: &str, times: u64) {
    if times > 1 {
        page.put(" ");
        page.show(&times);
    }
    if times > 0 {
        page.put(" ");
        page.debug(&piece);
    }
}

/// The lines of the bytes with their newlines, each once, with the number of times that it stands there in turn.
pub fn put_lines(page: &mut Page, bytes: &[u8]) {
    let text = str::from_utf8(bytes).unwrap_or("malformed");
    let mut last = page.string("");
    let mut times = 0u64;
    for line in text.split_inclusive('\n') {
        if line != last.as_str() {
            put_piece(page, last.as_str(), times);
            last = page.string(line);
            times = 0;
        }
        times = times.saturating_add(1);
    }
    put_piece(page, last.as_str(), times);
}

fn command_line<'a>(page: &mut Page, words: &'a str) -> Vec<&'a str> {
    let mut list = Vec::new(page.alloc);
    for word in value_of(words, "words").split(',') {
        if !word.is_empty() {
            page.keep(&mut list, word);
        }
    }
    list
}

fn run(
    page: &mut Page,
    tool: Tool,
    words: &str,
    source: &mut MemSource,
    sink: &mut MemSink,
    errors: &mut MemSink,
) {
    let list = command_line(page, words);
    let status = match tool {
        Tool::Script => run_tool(page.alloc, list.as_slice(), source, sink, errors),
        Tool::Audit => run_audit(page.alloc, list.as_slice(), source, sink, errors),
    };
    page.show(&status);
    put_lines(page, sink.taken());
    page.put(";");
    put_lines(page, errors.taken());
}

fn run_telling(
    page: &mut Page,
    tool: Tool,
    words: &str,
    source: &mut MemSource,
    sink: &mut MemSink,
) {
    match MemSink::new(page.alloc, 100, 100, Vec::new(page.alloc)) {
        Ok(mut errors) => run(page, tool, words, source, sink, &mut errors),
        Err(_) => page.fail(),
    }
}

fn run_writing(page: &mut Page, tool: Tool, words: &str, source: &mut MemSource) {
    let room = limit(words, "room", 10_000);
    let piece = limit(words, "writes", 1000);
    let fails = page.numbers(value_of(words, "unwritten"));
    match MemSink::new(page.alloc, room, piece, fails) {
        Ok(mut sink) => run_telling(page, tool, words, source, &mut sink),
        Err(_) => page.fail(),
    }
}

/// `run words=make,1 reads=10 unread=2 room=10 writes=10 unwritten=2 script=TEXT`: a run of the tool with these words on its command line,
/// where the source gives and the sink takes so many bytes at once, and these calls of them fail. The answer is the status, the lines that were
/// written, and behind `;` what was told of an error. `audit ..`: the same of the auditor, which reads the text of a log.
pub fn tell(page: &mut Page, tool: Tool, given: &str) {
    let (words, text) = given.split_once("script=").unwrap_or((given, ""));
    let script = decoded(page, text);
    let mut source = source(page, words, script.as_str());
    run_writing(page, tool, words, &mut source);
}

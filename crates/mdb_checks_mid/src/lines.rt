//! Cases of mdb_lines.

use mdb_base::{MemSink, MemSource, OutOfMemory};
use mdb_cases::{Page, decoded, parted, small, value_of};
use mdb_lines::{
    LineError, MAX_INPUT, RunError, cut_line, read_all, read_line, status_of, tell_error,
    tell_usage, write_all, write_line,
};

fn compare(page: &mut Page, spelling: Result<String, OutOfMemory>, line: &str) {
    match spelling {
        Ok(spelling) if spelling.as_str() == line => page.put("read"),
        Ok(spelling) => page.put(spelling.as_str()),
        Err(_) => page.fail(),
    }
}

fn read(page: &mut Page, number: u32, line: &str) {
    let read = read_line(page.alloc, line.as_bytes(), number);
    match &read {
        Ok(step) => compare(page, write_line(page.alloc, step), line),
        Err(LineError::Bad) => page.put("bad"),
        Err(LineError::OutOfMemory) => page.fail(),
    }
    drop(read);
}

/// `line 1 TEXT`: whether the text is a line of this number that is spelled as it was.
pub fn line(page: &mut Page, given: &str) {
    let (number, text) = parted(given);
    let text = decoded(page, text);
    read(page, small(number), text.as_str());
}

fn show_input(page: &mut Page, input: Result<Vec<u8>, RunError>) {
    match input {
        Ok(input) => page.debug(&str::from_utf8(&input).unwrap_or("malformed")),
        Err(RunError::OutOfMemory) => page.fail(),
        Err(error) => page.show(&error),
    }
}

// `lines input piece=3 fails=9 held=one\ntwo\n`: what is read of a source that gives such pieces.
fn input(page: &mut Page, given: &str) {
    let piece = small(value_of(given, "piece")).max(1) as usize;
    let fails = page.numbers(value_of(given, "fails"));
    let held = decoded(page, value_of(given, "held"));
    let mut source = MemSource::new(page.bytes(held.as_str()), piece, fails);
    let input = read_all(page.alloc, &mut source, MAX_INPUT);
    show_input(page, input);
}

// `lines long 131073`: how much is read of a source with so many bytes.
fn long(page: &mut Page, given: &str) {
    let mut held = Vec::new(page.alloc);
    if held.resize(small(given) as usize, b'a').is_err() {
        page.fail();
    }
    let mut source = MemSource::new(held, 1000, Vec::new(page.alloc));
    match read_all(page.alloc, &mut source, MAX_INPUT) {
        Ok(input) => page.show(&input.len()),
        Err(RunError::OutOfMemory) => page.fail(),
        Err(error) => page.show(&error),
    }
}

fn put_bytes(page: &mut Page, bytes: &[u8]) {
    page.debug(&str::from_utf8(bytes).unwrap_or("malformed"));
}

fn show_cut(page: &mut Page, line: &[u8], rest: &[u8]) {
    put_bytes(page, line);
    page.put(" ");
    put_bytes(page, rest);
}

fn cut_bytes(page: &mut Page, bytes: &[u8]) {
    if bytes.is_empty() {
        page.put("malformed");
        return;
    }
    match cut_line(bytes) {
        Some((line, rest)) => show_cut(page, line, rest),
        None => page.put("none"),
    }
}

// `lines cut one\ntwo\n`: the first line and what stands behind it.
fn cut(page: &mut Page, given: &str) {
    let text = decoded(page, given);
    cut_bytes(page, text.as_bytes());
}

/// The error of a run by a word, or by the number of a malformed line.
pub fn run_error(word: &str) -> RunError {
    match word {
        "memory" => RunError::OutOfMemory,
        "read" => RunError::ReadFault,
        "write" => RunError::WriteFault,
        "long" => RunError::TooLong,
        number => RunError::Malformed(small(number)),
    }
}

fn write(page: &mut Page, sink: &mut MemSink, text: &str) {
    match write_all(sink, text.as_bytes()) {
        Ok(()) => page.put("written "),
        Err(_) => page.put("failed "),
    }
}

fn say(page: &mut Page, sink: &mut MemSink, word: &str) {
    let (kind, text) = word.split_once(':').unwrap_or((word, ""));
    let text = decoded(page, text);
    match kind {
        "usage" => tell_usage(sink, text.as_str()),
        "text" => write(page, sink, text.as_str()),
        _ => tell_error(sink, run_error(kind)),
    }
}

fn say_each(page: &mut Page, sink: &mut MemSink, words: &str) {
    for word in words.split(',') {
        say(page, sink, word);
    }
    put_bytes(page, sink.taken());
}

// `lines said room=40 piece=3 fails=2 words=memory,12,usage:TEXT,text:TEXT`: whether each text was written, and what a sink
// with this room took of the errors, the usages and the texts.
fn said(page: &mut Page, given: &str) {
    let room = small(value_of(given, "room")) as usize;
    let piece = small(value_of(given, "piece")) as usize;
    let fails = page.numbers(value_of(given, "fails"));
    match MemSink::new(page.alloc, room, piece, fails) {
        Ok(mut sink) => say_each(page, &mut sink, value_of(given, "words")),
        Err(_) => page.fail(),
    }
}

// `lines status memory`: the status with which a program ends.
fn status(page: &mut Page, given: &str) {
    page.show(&status_of(run_error(given)));
}

/// `lines input ..`, `lines long ..`, `lines cut ..`, `lines said ..`, `lines status ..`.
pub fn answer(page: &mut Page, given: &str) {
    let (kind, given) = parted(given);
    match kind {
        "input" => input(page, given),
        "long" => long(page, given),
        "cut" => cut(page, given),
        "said" => said(page, given),
        "status" => status(page, given),
        _ => page.put("malformed"),
    }
}

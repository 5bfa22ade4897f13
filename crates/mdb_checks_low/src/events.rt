//! Cases of the texts of events, ends, facts and reasons.

use crate::server_events::server_event;
use mdb_cases::{Page, closed_reason, failed_reason, made_end, made_fact, parted, pool_event};
use mdb_events::{
    Boxed, CmapEvent, End, Fact, SdamEvent, closed_reason_text, failed_reason_text, write_cmap,
    write_sdam,
};

fn put_bytes(page: &mut Page, bytes: &[u8]) {
    page.put(str::from_utf8(bytes).unwrap_or("malformed"));
}

fn write_of_pool(page: &mut Page, event: &CmapEvent) {
    let mut out = Vec::new(page.alloc);
    if write_cmap(page.alloc, event, &mut out).is_err() {
        page.fail();
    }
    put_bytes(page, &out);
}

fn write_of_server(page: &mut Page, event: &SdamEvent) {
    let mut out = Vec::new(page.alloc);
    if write_sdam(page.alloc, event, &mut out).is_err() {
        page.fail();
    }
    put_bytes(page, &out);
}

fn tell_of_pool(page: &mut Page, name: &str, words: &str) {
    let made = pool_event(page, name, words);
    if let Some(event) = &made {
        write_of_pool(page, event);
    }
    drop(made);
}

fn tell_of_server(page: &mut Page, name: &str, words: &str) {
    let made = server_event(page, name, words);
    if let Some(event) = &made {
        write_of_server(page, event);
    }
    drop(made);
}

/// `event ConnectionReady a:1 id=3 ms=7`: the text of the event.
pub fn event(page: &mut Page, given: &str) {
    let (name, words) = parted(given);
    tell_of_pool(page, name, words);
    tell_of_server(page, name, words);
}

fn show_copy(page: &mut Page, end: &End) {
    let copied: Result<_, _> = end.clone();
    match &copied {
        Ok(copy) => page.show(copy),
        Err(_) => page.fail(),
    }
    drop(copied);
}

// `events end Cleared`: the text of a copy of the end.
fn ended(page: &mut Page, given: &str) {
    let end = made_end(page, given);
    show_copy(page, &end);
    drop(end);
}

fn of_server(page: &mut Page, words: &str) -> Option<Fact> {
    let (name, words) = parted(words);
    let event = server_event(page, name, words)?;
    match Boxed::new(page.alloc, event) {
        Ok(event) => Some(Fact::Sdam(event)),
        Err(_) => {
            page.fail();
            None
        }
    }
}

fn named_fact(page: &mut Page, name: &str, words: &str) -> Option<Fact> {
    if name == "Sdam" {
        of_server(page, words)
    } else {
        made_fact(page, name, words)
    }
}

/// `fact Granted 1 0.2`: the text of the fact.
pub fn fact(page: &mut Page, given: &str) {
    let (name, words) = parted(given);
    let made = named_fact(page, name, words);
    if let Some(fact) = &made {
        page.show(fact);
    }
    drop(made);
}

// `events closed Stale`: why a connection was closed, in a word and in a sentence.
fn closed(page: &mut Page, given: &str) {
    let reason = closed_reason(given);
    page.show(&reason);
    page.put(": ");
    page.put(closed_reason_text(reason));
}

// `events unserved Timeout`: why a checkout failed, in a word and in a sentence.
fn unserved(page: &mut Page, given: &str) {
    let reason = failed_reason(given);
    page.show(&reason);
    page.put(": ");
    page.put(failed_reason_text(reason));
}

/// `events end ..`, `events closed ..`, `events unserved ..`.
pub fn answer(page: &mut Page, given: &str) {
    let (kind, given) = parted(given);
    match kind {
        "end" => ended(page, given),
        "closed" => closed(page, given),
        "unserved" => unserved(page, given),
        _ => page.put("malformed"),
    }
}

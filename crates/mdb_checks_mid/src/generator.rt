//! Cases of mdb_generator.

use mdb_base::Items;
use mdb_cases::{Page, parted, pool_event, small};
use mdb_events::Fact;
use mdb_generator::{Summary, make_script, read_words};
use mdb_log::{Act, Entry, Reply, Step};

// The script of so many rounds; nothing where there are none, or more than 2,000.
fn script(page: &mut Page, rounds: u32) -> Vec<u8> {
    if rounds < 1 || 2000 < rounds {
        return Vec::new(page.alloc);
    }
    match make_script(page.alloc, rounds) {
        Ok(script) => script,
        Err(_) => {
            page.fail();
            Vec::new(page.alloc)
        }
    }
}

// `generator make 10`: the script of so many rounds.
fn make(page: &mut Page, given: &str) {
    let script = script(page, small(given));
    page.debug(&str::from_utf8(&script).unwrap_or("malformed"));
}

// `generator length 10`: how many bytes the script of so many rounds has.
fn length(page: &mut Page, given: &str) {
    let script = script(page, small(given));
    page.show(&script.len());
}

fn keep_event(page: &mut Page, facts: &mut Vec<Fact>, name: &str) {
    if let Some(event) = pool_event(page, name, "a:1 id=1") {
        page.keep(facts, Fact::Pool(0, event));
    }
}

fn entry(page: &mut Page, words: &str) -> Entry {
    let mut facts = Vec::new(page.alloc);
    for word in words.split(',') {
        match word {
            "-" => {}
            "Granted" => page.keep(&mut facts, Fact::Granted(7, 0, 1)),
            name => keep_event(page, &mut facts, name),
        }
    }
    Entry {
        seat: 0,
        step: Step {
            moment: 0,
            act: Act::Claim,
        },
        reply: Reply::NoJob,
        facts: Items::new(facts),
    }
}

// `generator summary ConnectionCreated,Granted - Granted`: the summary of a log whose entries have these facts.
fn summary(page: &mut Page, given: &str) {
    let mut entries = Vec::new(page.alloc);
    for words in given.split(' ') {
        let entry = entry(page, words);
        page.keep(&mut entries, entry);
    }
    page.show(&Summary::of(&entries));
    drop(entries);
}

// `generator command make 10`: what the words of a command line ask for; an empty word is written as two quotes.
fn command(page: &mut Page, given: &str) {
    let mut words: Vec<&str> = Vec::new(page.alloc);
    if !given.is_empty() {
        for word in given.split(' ') {
            page.keep(&mut words, if word == "''" { "" } else { word });
        }
    }
    page.debug(&read_words(&words));
}

/// `generator make ..`, `generator length ..`, `generator summary ..`, `generator command ..`.
pub fn answer(page: &mut Page, given: &str) {
    let (kind, given) = parted(given);
    match kind {
        "make" => make(page, given),
        "length" => length(page, given),
        "summary" => summary(page, given),
        "command" => command(page, given),
        _ => page.put("malformed"),
    }
}

//! Cases of the text of an entry: each reply, each refusal, and facts.

use mdb_base::Items;
use mdb_cases::{Page, made_end, made_fact, number, parted, small};
use mdb_events::Fact;
use mdb_lines::write_entry;
use mdb_log::{Act, Entry, Refused, Reply, Step, What};

fn what(word: &str) -> What {
    match word {
        "pool" => What::Pool,
        "generation" => What::Generation,
        "monitor" => What::Monitor,
        _ => What::Servers,
    }
}

fn refused(words: &str) -> Refused {
    let (word, rest) = parted(words);
    match word {
        "TimeBack" => Refused::TimeBack(number(rest)),
        "UnknownServer" => Refused::UnknownServer,
        "RequestKnown" => Refused::RequestKnown,
        "UnknownRequest" => Refused::UnknownRequest,
        "NotHolder" => Refused::NotHolder,
        "NotPending" => Refused::NotPending,
        "Unpinned" => Refused::Unpinned,
        "PinInUse" => Refused::PinInUse,
        "PinState" => Refused::PinState,
        "CheckRunning" => Refused::CheckRunning,
        "NotChecking" => Refused::NotChecking,
        "WrongMode" => Refused::WrongMode,
        _ => Refused::Exhausted(what(rest)),
    }
}

// The numbers of a pool and of a connection.
fn pair(words: &str) -> (u32, u32) {
    let (pool, connection) = words.split_once('.').unwrap_or((words, ""));
    (small(pool), small(connection))
}

fn reply(page: &mut Page, words: &str) -> Reply {
    let (word, rest) = parted(words);
    let (pool, connection) = pair(rest);
    match word {
        "Pooled" => Reply::Pooled(pool, connection),
        "Establishing" => Reply::Establishing(pool, connection),
        "Waiting" => Reply::Waiting,
        "Ended" => Reply::Ended(made_end(page, rest)),
        "Job" => Reply::Job(pool, connection),
        "NoJob" => Reply::NoJob,
        "Changed" => Reply::Changed(rest == "true"),
        "Count" => Reply::Count(number(rest)),
        "Done" => Reply::Done,
        _ => Reply::Refused(refused(rest)),
    }
}

fn keep_fact(page: &mut Page, facts: &mut Vec<Fact>, words: &str) {
    let (name, rest) = parted(words);
    if let Some(fact) = made_fact(page, name, rest) {
        page.keep(facts, fact);
    }
}

fn facts(page: &mut Page, words: &str) -> Items<Fact> {
    let mut facts = Vec::new(page.alloc);
    for words in words.split(" | ").skip(1) {
        keep_fact(page, &mut facts, words);
    }
    Items::new(facts)
}

fn write(page: &mut Page, out: &mut Vec<u8>, reply: Reply, facts: Items<Fact>) {
    let entry = Entry {
        seat: 0,
        step: Step {
            moment: 5,
            act: Act::Claim,
        },
        reply,
        facts,
    };
    if write_entry(page.alloc, &entry, out).is_err() {
        page.fail();
    }
    drop(entry);
}

/// `entry Pooled 0.1 | Granted 1 0.1`: the text of an entry with this reply and these facts, whose step is a claim.
pub fn entry(page: &mut Page, given: &str) {
    let (words, _) = given.split_once(" | ").unwrap_or((given, ""));
    let reply = reply(page, words);
    let facts = facts(page, given);
    let mut out = Vec::new(page.alloc);
    write(page, &mut out, reply, facts);
    page.debug(&str::from_utf8(&out).unwrap_or("malformed"));
}

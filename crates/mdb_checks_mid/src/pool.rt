//! Cases of mdb_pool: the calls of one pool.

use crate::pool_parts::{request_in_parts, would};
use crate::pool_steps::{run, step};
use crate::pool_told::{tell, tell_facts, tell_reply};
use mdb_base::{Error, Moment, ObjectId, OutOfMemory};
use mdb_cases::{Page, made_error, number, parted, signed, small, value_of};
use mdb_events::Fact;
use mdb_log::{Established, FailedAt, Log, PoolOptions, Reply, Use};
use mdb_pool::PoolCore;
use std::mem;

/// The pool 0 of the address `a:1`, the facts of the last call, and the log of the steps.
#[derive(Drop)]
pub struct Pool {
    pub core: PoolCore,
    pub facts: Vec<Fact>,
    pub log: Log,
}

type Answer = Result<Reply, OutOfMemory>;

/// The service that the words name, if they name one.
pub fn service(words: &str) -> Option<ObjectId> {
    ObjectId::from_hex(value_of(words, "sid"))
}

/// What establishing a connection found out.
pub fn made(words: &str) -> Established {
    Established {
        wire: signed(value_of(words, "wire")),
        service_id: service(words),
        server_id: None,
    }
}

/// How a connection was used.
pub fn used(word: &str) -> Use {
    match word {
        "errored" => Use::Errored,
        "dropped" => Use::Dropped,
        "streaming" => Use::Streaming,
        _ => Use::Ok,
    }
}

/// When establishing a connection failed.
pub fn failed_at(words: &str) -> FailedAt {
    if words.starts_with("post") {
        FailedAt::Post(service(words))
    } else {
        FailedAt::Pre
    }
}

/// The cause of a clear or of a failure.
pub fn cause(page: &mut Page, words: &str) -> Error {
    made_error(page, words, value_of(words, "msg"))
}

fn limit(word: &str) -> u64 {
    word.parse::<u64>().unwrap_or(1000)
}

fn options(words: &str) -> PoolOptions {
    PoolOptions {
        max_pool_size: value_of(words, "max").parse::<u32>().ok(),
        min_pool_size: value_of(words, "min").parse::<u32>().ok(),
        max_idle_time: value_of(words, "idle").parse::<u64>().ok(),
        max_wait: value_of(words, "wait").parse::<u64>().ok(),
        max_connecting: value_of(words, "connecting").parse::<u32>().ok(),
        load_balanced: words.starts_with("lb"),
        limit_id: value_of(words, "limit_id").parse::<u32>().unwrap_or(1000),
        limit_generation: limit(value_of(words, "limit_generation")),
    }
}

fn open(page: &mut Page, words: &str) -> Option<Pool> {
    let address = page.address("a:1")?;
    Some(Pool {
        core: PoolCore::new(page.alloc, 0, address, options(words)),
        facts: Vec::new(page.alloc),
        log: Log::new(page.alloc),
    })
}

fn fail(page: &mut Page, pool: &mut Pool, moment: Moment, words: &str) -> Answer {
    let (id, words) = parted(words);
    let cause = cause(page, words);
    let at = failed_at(words);
    pool.core
        .failed(page.alloc, &mut pool.facts, moment, small(id), at, cause)
}

fn clear(page: &mut Page, pool: &mut Pool, moment: Moment, words: &str) -> Answer {
    let cause = cause(page, words);
    let service = service(words);
    pool.core
        .clear(page.alloc, &mut pool.facts, moment, service, cause)
}

fn of_pool(page: &mut Page, pool: &mut Pool, moment: Moment, act: &str) -> Answer {
    let facts = &mut pool.facts;
    match act {
        "claim" => pool.core.claim(page.alloc, facts, moment),
        "maintain" => pool.core.maintain(page.alloc, facts, moment),
        "expire" => pool.core.expire(page.alloc, facts, moment),
        "ready" => pool.core.mark_as_ready(page.alloc, facts, moment),
        "close" => pool.core.close(page.alloc, facts, moment),
        _ => {
            page.put("malformed ");
            Ok(Reply::Done)
        }
    }
}

fn of_pin(page: &mut Page, pool: &mut Pool, moment: Moment, act: &str, words: &str) -> Answer {
    let (first, second) = parted(words);
    let (party, id) = (small(first), small(second));
    let facts = &mut pool.facts;
    match act {
        "pin" => pool.core.pin(page.alloc, facts, moment, party),
        "replicate" => pool.core.replicate(page.alloc, facts, moment, party),
        "unpin" => pool.core.unpin(page.alloc, facts, moment, party),
        "take" if pool.core.is_alone() => pool
            .core
            .take_connection(page.alloc, facts, moment, party, id),
        _ => of_pool(page, pool, moment, act),
    }
}

fn of_party(page: &mut Page, pool: &mut Pool, moment: Moment, act: &str, words: &str) -> Answer {
    let (party, how) = parted(words);
    let party = small(party);
    let facts = &mut pool.facts;
    match act {
        "request" if pool.core.is_alone() => pool.core.request(page.alloc, facts, moment, party),
        "warm" if pool.core.is_alone() => pool.core.warm(page.alloc, facts, moment, party),
        "collect" => pool.core.collect(page.alloc, facts, moment, party),
        "giveup" => pool.core.give_up(page.alloc, facts, moment, party),
        "return" => pool
            .core
            .check_in(page.alloc, facts, moment, party, used(how)),
        "established" => pool
            .core
            .established(page.alloc, facts, moment, party, made(how)),
        "failed" => fail(page, pool, moment, words),
        "clear" => clear(page, pool, moment, words),
        _ => of_pin(page, pool, moment, act, words),
    }
}

// One call, its reply, and each of its facts behind a bar.
fn call(page: &mut Page, pool: &mut Pool, act: &str, words: &str) {
    let (moment, words) = parted(words);
    pool.facts.clear();
    let answer = of_party(page, pool, number(moment), act, words);
    match &answer {
        Ok(reply) => tell_reply(page, reply),
        Err(_) => page.fail(),
    }
    drop(answer);
    tell_facts(page, pool.facts.as_slice());
}

fn act_on(page: &mut Page, pool: &mut Pool, act: &str, words: &str) {
    match act {
        "open" => page.debug(&pool.core.state()),
        "tell" => tell(page, &pool.core, words),
        "step" => step(page, pool, words),
        "would" => would(page, &pool.core, words),
        "plan" => request_in_parts(page, pool, words, false),
        "do" => request_in_parts(page, pool, words, true),
        "run" => run(page, pool, words),
        "log" => page.show(&pool.log.len()),
        _ => call(page, pool, act, words),
    }
}

/// `pool open lb max=1`: the state of the pool that this makes. `pool ACT MOMENT ..` is a call, and `pool step ACT MOMENT ..`
/// a step: its reply, and each of its facts. `pool would`, `pool plan` and `pool do` are about a request. `pool tell WHAT ..`: what the pool then answers. `pool log`: how many entries
/// the steps made.
pub fn follow(page: &mut Page, pool: &mut Option<Pool>, given: &str) {
    let (act, words) = parted(given);
    if act == "open" {
        let before = mem::replace(pool, open(page, words));
        drop(before);
    }
    if let Some(pool) = pool {
        act_on(page, pool, act, words);
    }
}

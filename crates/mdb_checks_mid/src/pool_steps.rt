//! Cases of mdb_pool: the acts of one pool as steps, which a log keeps.

ghost use Rattle.std.specs.Prelude.{ℕ, IfSome};
ghost use Rattle.mdb_log.specs.Acts.{IsPoolAct};

use crate::pool::{Pool, cause, failed_at, made, service, used};
use crate::pool_told::tell_entry;
use mdb_base::{Error, Moment, OutOfMemory};
use mdb_cases::{Page, number, parted, small};
use mdb_events::Boxed;
use mdb_log::{Act, Step};

type Stepped = Result<(), OutOfMemory>;

// The functions that make an act do not drop it, since a drop there looks at every kind of act.
fn take_step(page: &mut Page, pool: &mut Pool, moment: Moment, act: Act)
    requires { IsPoolAct pool.old.core.pool act }
{
    if !pool.core.is_alone() {
        drop(act);
        return;
    }
    let step = Step { moment, act };
    let stepped = pool.core.step(page.alloc, &mut pool.log, 0, &step);
    drop(step);
    if stepped.is_err() {
        page.fail();
    }
}

fn held_cause(page: &mut Page, words: &str) -> Option<Boxed<Error>> {
    let cause = cause(page, words);
    match Boxed::new(page.alloc, cause) {
        Ok(cause) => Some(cause),
        Err(_) => {
            page.fail();
            None
        }
    }
}

// The act at an address.
fn at_address(page: &mut Page, number: u32, name: &str, words: &str) -> Option<Act>
    ensures { IfSome result (λ act. IsPoolAct number act) }
{
    let (party, at) = parted(words);
    match name {
        "request" => Some(Act::Request(small(party), page.address(at)?)),
        "warm" => Some(Act::Warm(small(party), page.address(at)?)),
        "maintain" => Some(Act::Maintain(page.address(words)?)),
        "expire" => Some(Act::Expire(page.address(words)?)),
        _ => None,
    }
}

// The act on the pool of this number. The number of another pool is malformed here: a pool takes such a step on its own number alone.
fn of_pool(page: &mut Page, number: u32, name: &str, words: &str) -> Option<Act>
    ensures { IfSome result (λ act. IsPoolAct number act) }
{
    let (home, words) = parted(words);
    page.put_if(small(home) != number, "malformed ");
    match name {
        "ready" => Some(Act::Ready(number)),
        "close" => Some(Act::Close(number)),
        _ => Some(Act::Clear(number, service(words), held_cause(page, words)?)),
    }
}

// The act on a connection.
fn of_connection(page: &mut Page, number: u32, name: &str, words: &str) -> Option<Act>
    ensures { IfSome result (λ act. IsPoolAct number act) }
{
    let (home, words) = parted(words);
    let (id, words) = parted(words);
    let (home, id) = (small(home), small(id));
    match name {
        "replicate" => Some(Act::Replicate(home, id)),
        "unpin" => Some(Act::Unpin(home, id)),
        "established" => Some(Act::Established(home, id, made(words))),
        _ => Some(Act::Failed(home, id, failed_at(words), held_cause(page, words)?)),
    }
}

// The act of a party.
fn of_party(name: &str, words: &str) -> Option<Act>
    ensures { (number : ℕ) → IfSome result (λ act. IsPoolAct number act) }
{
    let (party, words) = parted(words);
    let party = small(party);
    match name {
        "collect" => Some(Act::Collect(party)),
        "giveup" => Some(Act::GiveUp(party)),
        "return" => Some(Act::Return(party, used(words))),
        "pin" => Some(Act::Pin(party)),
        "take" => {
            let (home, id) = parted(words);
            Some(Act::Take(party, small(home), small(id)))
        }
        "claim" => Some(Act::Claim),
        _ => None,
    }
}

// The act of this name, for the pool of this number; none where no act has it, or memory is short.
fn named_act(page: &mut Page, number: u32, name: &str, words: &str) -> Option<Act>
    ensures { IfSome result (λ act. IsPoolAct number act) }
{
    match name {
        "ready" | "close" | "clear" => of_pool(page, number, name, words),
        "replicate" | "unpin" | "established" | "failed" => {
            of_connection(page, number, name, words)
        }
        "request" | "warm" | "maintain" | "expire" => at_address(page, number, name, words),
        _ => of_party(name, words),
    }
}

/// `ACT MOMENT ..`: the reply and the facts of the entry that the step made.
pub fn step(page: &mut Page, pool: &mut Pool, words: &str) {
    let (act, words) = parted(words);
    let (moment, words) = parted(words);
    match named_act(page, pool.core.number(), act, words) {
        Some(act) => take_step(page, pool, number(moment), act),
        None => page.put("malformed "),
    }
    match pool.log.entries().last() {
        Some(entry) => tell_entry(page, entry),
        None => page.put("malformed"),
    }
}

fn run_two(page: &mut Page, pool: &mut Pool, first: Act, second: Act) -> Stepped
    requires first { IsPoolAct pool.old.core.pool first }
    requires second { IsPoolAct pool.old.core.pool second }
{
    let first = Step {
        moment: 0,
        act: first,
    };
    let second = Step {
        moment: 1,
        act: second,
    };
    let steps = [first, second];
    if !pool.core.is_alone() {
        drop(steps);
        return Ok(());
    }
    let ran = pool.core.run(page.alloc, &mut pool.log, 0, &steps);
    drop(steps);
    ran
}

fn run_both(page: &mut Page, pool: &mut Pool, words: &str) -> Stepped {
    let Some(address) = page.address("a:1") else {
        return Ok(());
    };
    let first = Act::Request(1, address);
    let second = Act::Established(0, 1, made(words));
    run_two(page, pool, first, second)
}

/// `wire=21 sid=ID`: how many entries the log has once 1 asked at 0 and its connection was so established at 1, and the last entry.
pub fn run(page: &mut Page, pool: &mut Pool, words: &str) {
    if run_both(page, pool, words).is_err() {
        page.fail();
    }
    page.show(&pool.log.len());
    match pool.log.entries().last() {
        Some(entry) => {
            page.put(" ");
            tell_entry(page, entry);
        }
        None => page.put("malformed"),
    }
}

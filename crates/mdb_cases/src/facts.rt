//! Ends of requests and facts by their words.

use crate::errors::down;
use crate::page::Page;
use crate::pool_events::{pool_event, service};
use crate::words::{parted, small};
use mdb_base::Error;
use mdb_events::{Boxed, End, Fact};

/// A network error that stands apart; none where memory is short.
pub fn held_down(page: &mut Page) -> Option<Boxed<Error>> {
    let error = down(page);
    match Boxed::new(page.alloc, error) {
        Ok(error) => Some(error),
        Err(_) => {
            page.fail();
            None
        }
    }
}

/// The end of this name, and another where there is no memory for its error.
pub fn made_end(page: &mut Page, word: &str) -> End {
    match word {
        "Cleared" => match held_down(page) {
            Some(error) => End::Cleared(error),
            None => End::GaveUp,
        },
        "Failed" => match held_down(page) {
            Some(error) => End::Failed(error),
            None => End::GaveUp,
        },
        "Closed" => End::Closed,
        "Warmed" => End::Warmed,
        "Filled" => End::Filled,
        "TimedOut" => End::TimedOut,
        _ => End::GaveUp,
    }
}

fn grant(words: &str) -> Fact {
    let (pool, connection) = words.split_once('.').unwrap_or((words, ""));
    let (party, pool) = parted(pool);
    Fact::Granted(small(party), small(pool), small(connection))
}

fn of_pool(page: &mut Page, words: &str) -> Option<Fact> {
    let (pool, event) = parted(words);
    let (name, words) = parted(event);
    let event = pool_event(page, name, words)?;
    Some(Fact::Pool(small(pool), event))
}

// The fact of this name about a pool.
fn counted(page: &mut Page, name: &str, words: &str) -> Option<Fact> {
    let (pool, rest) = parted(words);
    match name {
        "Opened" => Some(Fact::Opened(small(pool), page.address(rest)?)),
        "Ended" => Some(Fact::Ended(small(pool), made_end(page, rest))),
        "Raised" => Some(Fact::Raised(small(pool), service(rest), held_down(page)?)),
        _ => None,
    }
}

/// The fact of this name about a pool or a server, and none where no such fact has it.
pub fn made_fact(page: &mut Page, name: &str, words: &str) -> Option<Fact> {
    match name {
        "Granted" => Some(grant(words)),
        "Pool" => of_pool(page, words),
        "CheckNow" => Some(Fact::CheckNow(page.address(words)?)),
        "Cancel" => Some(Fact::Cancel(page.address(words)?)),
        _ => counted(page, name, words),
    }
}

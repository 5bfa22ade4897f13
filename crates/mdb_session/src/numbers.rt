//! A reply as numbers, for callers that know no enum.

ghost use Rattle.std.specs.Prelude.{◌≡◌};
ghost use Rattle.mdb_session.specs.Numbers.{reply_numbers, refused_numbers, end_number, what_number};

use mdb_events::End;
use mdb_log::{Refused, Reply, What};

/// What a reply says. A number that it does not have is 0.
#[repr(C)]
#[derive(Clone, Copy, Debug, PartialEq, Eq)]
pub struct ReplyNumbers {
    /// The kind of the reply, from 1.
    pub kind: u32,
    /// The pool.
    pub pool: u32,
    /// The connection.
    pub id: u32,
    /// How a request ended, or why a step was refused, from 1.
    pub why: u32,
    /// A count, 1 for a change, the last moment of `TimeBack`, or what is exhausted, from 1.
    pub number: u64,
}

pub(crate) fn end_number(end: &End) -> u32
    ensures { result ≡ end_number end.now }
{
    match end {
        End::Cleared(_) => 1,
        End::Failed(_) => 2,
        End::Closed => 3,
        End::Warmed => 4,
        End::Filled => 5,
        End::GaveUp => 6,
        End::TimedOut => 7,
    }
}

fn what_number(what: What) -> u64
    ensures { result ≡ what_number what }
{
    match what {
        What::Pool => 1,
        What::Generation => 2,
        What::Monitor => 3,
        What::Servers => 4,
    }
}

fn of(kind: u32, pool: u32, id: u32, why: u32, number: u64) -> ReplyNumbers
    ensures { result ≡ record { kind = kind; pool = pool; id = id; why = why; number = number } }
{
    ReplyNumbers {
        kind,
        pool,
        id,
        why,
        number,
    }
}

// A refusal.
fn refused_numbers(why: Refused) -> ReplyNumbers
    ensures { result ≡ refused_numbers why }
{
    match why {
        Refused::TimeBack(last) => of(10, 0, 0, 1, last),
        Refused::UnknownServer => of(10, 0, 0, 2, 0),
        Refused::RequestKnown => of(10, 0, 0, 3, 0),
        Refused::UnknownRequest => of(10, 0, 0, 4, 0),
        Refused::NotHolder => of(10, 0, 0, 5, 0),
        Refused::NotPending => of(10, 0, 0, 6, 0),
        Refused::Unpinned => of(10, 0, 0, 7, 0),
        Refused::PinInUse => of(10, 0, 0, 8, 0),
        Refused::PinState => of(10, 0, 0, 9, 0),
        Refused::CheckRunning => of(10, 0, 0, 10, 0),
        Refused::NotChecking => of(10, 0, 0, 11, 0),
        Refused::WrongMode => of(10, 0, 0, 12, 0),
        Refused::Exhausted(what) => of(10, 0, 0, 13, what_number(what)),
    }
}

/// The numbers of a reply.
pub fn numbers_of(reply: &Reply) -> ReplyNumbers
    ensures { result ≡ reply_numbers reply.now }
{
    match reply {
        Reply::Pooled(pool, id) => of(1, *pool, *id, 0, 0),
        Reply::Establishing(pool, id) => of(2, *pool, *id, 0, 0),
        Reply::Waiting => of(3, 0, 0, 0, 0),
        Reply::Ended(end) => of(4, 0, 0, end_number(end), 0),
        Reply::Job(pool, id) => of(5, *pool, *id, 0, 0),
        Reply::NoJob => of(6, 0, 0, 0, 0),
        Reply::Changed(false) => of(7, 0, 0, 0, 0),
        Reply::Changed(true) => of(7, 0, 0, 0, 1),
        Reply::Count(count) => of(8, 0, 0, 0, *count),
        Reply::Done => of(9, 0, 0, 0, 0),
        Reply::Refused(why) => refused_numbers(*why),
    }
}

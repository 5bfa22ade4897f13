//! What a log came to, in numbers.

ghost use Rattle.std.specs.Prelude.{◌≡◌};
ghost use Rattle.mdb_generator.specs.Summaries.{is_of, number_of, summary_of};

use mdb_events::{CmapEvent, Fact};
use mdb_log::Entry;
use std::fmt;

/// The facts that a summary counts.
#[derive(Clone, Copy, Debug, PartialEq, Eq)]
pub enum Kind {
    /// A connection was granted to a party.
    Grant,
    /// A connection was created.
    Creation,
    /// A connection was closed.
    Close,
}

fn is_of(kind: Kind, fact: &Fact) -> bool
    ensures { result ≡ is_of kind fact.now }
{
    match (kind, fact) {
        (Kind::Grant, Fact::Granted(_, _, _)) => true,
        (Kind::Creation, Fact::Pool(_, CmapEvent::ConnectionCreated(_))) => true,
        (Kind::Close, Fact::Pool(_, CmapEvent::ConnectionClosed(_))) => true,
        _ => false,
    }
}

// How many facts of a log are of the kind.
fn number_of(kind: Kind, entries: &[Entry]) -> u128
    ensures { result ≡ number_of kind entries.now }
{
    let mut number = 0u128;
    for entry in entries {
        let facts = entry.facts.as_slice();
        number += facts.iter().filter(|fact| is_of(kind, fact)).count() as u128;
    }
    number
}

/// The number of a log's entries, and of its facts of three kinds. 128 bits hold any number of facts.
///
/// Its text names the entries, the grants, the connections created and closed, and the ones that are left.
#[derive(Clone, Copy, Debug, PartialEq, Eq)]
pub struct Summary {
    pub lines: usize,
    pub granted: u128,
    pub created: u128,
    pub closed: u128,
}

impl Summary {
    /// The summary of a log's entries.
    pub fn of(entries: &[Entry]) -> Summary
        ensures { result ≡ summary_of entries.now }
    {
        Summary {
            lines: entries.len(),
            granted: number_of(Kind::Grant, entries),
            created: number_of(Kind::Creation, entries),
            closed: number_of(Kind::Close, entries),
        }
    }
}

impl fmt::Display for Summary {
    ghost use Rattle.std.specs.Prelude.{Some};
    ghost use Rattle.mdb_generator.specs.Summaries.{summary_text};

    ghost output = { λ s. Some (summary_text s) };

    fn fmt<W: fmt::Write>(&self, f: &mut fmt::Formatter<W>) -> fmt::Result {
        let Summary {
            lines,
            granted,
            created,
            closed,
        } = *self;
        let live = created.saturating_sub(closed);
        write!(
            f,
            "lines={lines} granted={granted} created={created} closed={closed} live={live}"
        )
    }
}

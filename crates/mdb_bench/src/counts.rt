//! What the log of a pool came to.

ghost use Rattle.std.specs.Prelude.{◌≡◌};
ghost use Rattle.mdb_bench.specs.Counts.{is_grant, counts_of};

use mdb_events::Fact;
use mdb_log::Entry;
use mdb_slots::{SlotTable, Touches};

fn is_grant(fact: &Fact) -> bool
    ensures { result ≡ is_grant fact.now }
{
    matches!(fact, Fact::Granted(_, _, _))
}

/// How many entries a log has, and how many grants are among their facts. 128 bits hold any number of facts.
#[derive(Clone, Copy)]
pub struct Counts {
    pub entries: usize,
    pub granted: u128,
}

impl Counts {
    /// The counts of a log's entries.
    pub fn of(entries: &[Entry]) -> Counts
        ensures { result ≡ counts_of entries.now }
    {
        let mut granted = 0u128;
        for entry in entries {
            let facts = entry.facts.as_slice();
            granted += facts.iter().filter(|fact| is_grant(fact)).count() as u128;
        }
        Counts {
            entries: entries.len(),
            granted,
        }
    }
}

/// The greatest number of a slot in use, and one more; `most` records are looked at. A freed slot that is not used again makes it
/// grow with the rounds.
pub fn count_slots(available: &SlotTable, most: u32) -> u64 {
    let mut next = available.oldest(&mut Touches { count: 0 });
    let mut slots = 0;
    for _ in 0..most {
        let Some(at) = next else {
            break;
        };
        slots = slots.max(u64::from(at.slot) + 1);
        next = available.after(at, &mut Touches { count: 0 });
    }
    slots
}

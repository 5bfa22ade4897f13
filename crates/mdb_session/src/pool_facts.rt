//! The facts of a pool that stands alone as numbers. It knows no servers.

ghost use Rattle.std.specs.Prelude.{◌≡◌, ◌≤◌, ◌++◌, length, drop, map};
ghost use Rattle.mdb_session.specs.Facts.{filled};
ghost use Rattle.mdb_session.specs.PoolFacts.{pool_fact_numbers};

use crate::fact_numbers::{FactNumbers, of_kind, pool_numbers, sdam_numbers, with_service};
use crate::numbers::end_number;
use mdb_events::Fact;

// The numbers of a fact.
fn pool_fact_numbers(fact: &Fact) -> FactNumbers
    ensures { result ≡ pool_fact_numbers fact.now }
{
    match fact {
        Fact::Opened(pool, _) => of_kind(1, Some(*pool), 0, 0, 0),
        Fact::Pool(pool, event) => pool_numbers(*pool, event),
        Fact::Granted(party, pool, id) => of_kind(3, Some(*pool), *id, *party, 0),
        Fact::Ended(request, end) => of_kind(4, None, 0, *request, end_number(end)),
        Fact::Raised(pool, service, _) => {
            with_service(of_kind(5, Some(*pool), 0, 0, 0), *service)
        }
        Fact::Sdam(event) => sdam_numbers(None, event.get()),
        Fact::CheckNow(_) => of_kind(7, None, 0, 0, 0),
        Fact::Cancel(_) => of_kind(8, None, 0, 0, 0),
    }
}

// Writes the numbers of the facts to the beginning of the room.
fn fill(facts: &[Fact], out: &mut [FactNumbers])
    requires { length facts.now ≤ length out.old }
    ensures { out.new ≡ map pool_fact_numbers facts.now ++ drop (length facts.now) out.old }
{
    for index in 0..facts.len() {
        out[index] = pool_fact_numbers(&facts[index]);
    }
}

/// Writes the numbers of the facts of a pool that stands alone, in their order, to the beginning of `out` where they fit there, and answers how many they are.
pub fn tell_pool_facts(facts: &[Fact], out: &mut [FactNumbers]) -> usize
    ensures count { result ≡ length facts.now }
    ensures told { out.new ≡ filled (map pool_fact_numbers facts.now) out.old }
{
    let count = facts.len();
    if count <= out.len() {
        fill(facts, out);
    }
    count
}

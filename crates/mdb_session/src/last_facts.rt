//! The facts of the last entry as numbers, and the numbers of servers.

ghost use Rattle.std.specs.Prelude.{◌≡◌, ◌≤◌, ◌++◌, length, drop, List, IfSome, IfNone, option_copied, option_and_then};
ghost use Rattle.mdb_log.specs.History.{history_of};
ghost use Rattle.mdb_session.specs.Facts.{AreLastFacts, AreNumbersAt, IsServerNumber, closed_at, closed_by, fact_numbers, filled, sdam_address, server_number, told_facts};
ghost use Rattle.mdb_session.specs.Sessions.{LacksFact};
ghost use Rattle.mdb_session.specs.declared.fact_numbers.FactNumbers.{FactNumbers as Numbers};

use crate::fact_numbers::{FactNumbers, of_kind, pool_numbers, sdam_numbers, with_service};
use crate::numbers::end_number;
use crate::session::Session;
use mdb_base::ServerAddress;
use mdb_events::{CmapEvent, Fact, SdamEvent};

/// The address of the server that an event is of, if it is of one.
pub fn sdam_address(event: &SdamEvent) -> Option<&ServerAddress>
    ensures { option_copied result ≡ sdam_address event.now }
{
    match event {
        SdamEvent::ServerDescriptionChanged(e) => Some(&e.address),
        SdamEvent::ServerOpening(e) => Some(&e.address),
        SdamEvent::ServerClosed(e) => Some(&e.address),
        SdamEvent::TopologyDescriptionChanged(_) => None,
        SdamEvent::TopologyOpening(_) => None,
        SdamEvent::TopologyClosed(_) => None,
        SdamEvent::ServerHeartbeatStarted(e) => Some(&e.server_address),
        SdamEvent::ServerHeartbeatSucceeded(e) => Some(&e.server_address),
        SdamEvent::ServerHeartbeatFailed(e) => Some(&e.server_address),
    }
}

// The pool at the address that the fact closes, if it closes one.
fn closed_by(fact: &Fact, address: &ServerAddress) -> Option<u32>
    ensures { result ≡ closed_by fact.now address.now }
{
    match fact {
        Fact::Pool(pool, CmapEvent::PoolClosed(e)) => {
            if e.address.is(address) {
                Some(*pool)
            } else {
                None
            }
        }
        _ => None,
    }
}

// The pool at the address that one of the facts closes.
fn closed_at(facts: &[Fact], address: &ServerAddress) -> Option<u32>
    ensures { result ≡ closed_at facts.now address.now }
{
    let mut rest = facts;
    while let [fact, more @ ..] = rest {
        if let Some(pool) = closed_by(fact, address) {
            return Some(pool);
        }
        rest = more;
    }
    None
}

impl Session {
    // The number of the server, of which these facts of the last entry may tell.
    fn number_among(&self, facts: &[Fact], address: &ServerAddress) -> Option<u32>
        ensures { result ≡ server_number (history_of self.now) facts.now address.now }
    {
        match self.open_pool(address) {
            Some(pool) => Some(pool),
            None => closed_at(facts, address),
        }
    }

    // The number of the server, if there is one.
    fn number_of(&self, facts: &[Fact], address: Option<&ServerAddress>) -> Option<u32>
        ensures { result ≡ option_and_then (server_number (history_of self.now) facts.now) (option_copied address.entry) }
    {
        match address {
            Some(address) => self.number_among(facts, address),
            None => None,
        }
    }

    // The numbers of one of the facts.
    fn fact_numbers(&self, facts: &[Fact], fact: &Fact) -> FactNumbers
        ensures { result ≡ fact_numbers (server_number (history_of self.now) facts.now) fact.now }
    {
        match fact {
            Fact::Opened(pool, _) => of_kind(1, Some(*pool), 0, 0, 0),
            Fact::Pool(pool, event) => pool_numbers(*pool, event),
            Fact::Granted(party, pool, id) => of_kind(3, Some(*pool), *id, *party, 0),
            Fact::Ended(request, end) => of_kind(4, None, 0, *request, end_number(end)),
            Fact::Raised(pool, service, _) => {
                with_service(of_kind(5, Some(*pool), 0, 0, 0), *service)
            }
            Fact::Sdam(event) => {
                let server = self.number_of(facts, sdam_address(event.get()));
                sdam_numbers(server, event.get())
            }
            Fact::CheckNow(address) => { of_kind(7, self.number_among(facts, address), 0, 0, 0) }
            Fact::Cancel(address) => of_kind(8, self.number_among(facts, address), 0, 0, 0),
        }
    }

    // Writes the numbers of the facts to the beginning of the room.
    fn fill(&self, facts: &[Fact], out: &mut [FactNumbers])
        requires { length facts.now ≤ length out.old }
        ensures { out.new ≡ told_facts (history_of self.now) facts.now ++ drop (length facts.now) out.old }
    {
        for index in 0..facts.len() {
            out[index] = self.fact_numbers(facts, &facts[index]);
        }
    }

    /// The numbers of a fact of the last entry, by its index.
    pub fn fact(&self, index: usize) -> Option<FactNumbers>
        ensures some { IfSome result (λ numbers. AreNumbersAt self.now index numbers) }
        ensures none { IfNone result (LacksFact self.now index) }
    {
        let facts = self.last().facts.as_slice();
        match facts.get(index) {
            Some(fact) => Some(self.fact_numbers(facts, fact)),
            None => None,
        }
    }

    /// Writes the numbers of all facts of the last entry, in their order, to the beginning of `out` where they fit there, and answers how many they are.
    pub fn facts(&self, out: &mut [FactNumbers]) -> usize
        ensures { (told : List Numbers) × AreLastFacts self.now told × (result ≡ length told) × (out.new ≡ filled told out.old) }
    {
        let facts = self.last().facts.as_slice();
        let count = facts.len();
        if count <= out.len() {
            self.fill(facts, out);
        }
        count
    }

    /// The number of the server at the address, if it has one: that of its pool, which is open, or which the last entry closed.
    pub fn server_number(&self, address: &ServerAddress) -> Option<u32>
        ensures { IsServerNumber self.now address.now result }
    {
        self.number_among(self.last().facts.as_slice(), address)
    }
}

//! The text of a fact.

use crate::shown::ShownFact;
use mdb_events::ServiceOrDash;
use std::fmt;

impl fmt::Display for ShownFact {
    ghost use Rattle.std.specs.Prelude.{Some};
    ghost use Rattle.mdb_entries.specs.Facts.{shown_fact};

    ghost output = { λ x. Some (shown_fact x) };

    fn fmt<W: fmt::Write>(&self, f: &mut fmt::Formatter<W>) -> fmt::Result {
        match self {
            ShownFact::Opened(pool, address) => write!(f, "Opened {pool} {address}"),
            ShownFact::Pool(pool, event) => write!(f, "Pool {pool} {event}"),
            ShownFact::Granted(party, pool, id) => write!(f, "Granted {party} {pool}.{id}"),
            ShownFact::Ended(request, end) => write!(f, "Ended {request} {end}"),
            ShownFact::Raised(pool, service, error) => {
                let service = ServiceOrDash(*service);
                write!(f, "Raised {pool} {service} {error}")
            }
            ShownFact::Sdam(event) => {
                let event = event.as_str();
                write!(f, "Sdam {event}")
            }
            ShownFact::CheckNow(address) => write!(f, "CheckNow {address}"),
            ShownFact::Cancel(address) => write!(f, "Cancel {address}"),
        }
    }
}

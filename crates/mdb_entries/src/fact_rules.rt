//! Which facts a text spells.

ghost use Rattle.std.specs.Prelude.{◌≡◌, ◌<◌, ◌^◌, IfOk, true};
ghost use Rattle.mdb_entries.specs.Facts.{is_fact, IsFactOfTypes, TellsEvent, IsFact};

use crate::shown::ShownFact;
use mdb_base::OutOfMemory;
use mdb_event_reading::{end_types, event_types, is_end, is_event, is_sdam};
use mdb_parts::number_types::optional_id;
use mdb_parts::{error_types, is_error};
use std::alloc::Global;

fn is_fact(fact: &ShownFact) -> bool
    ensures { result ≡ is_fact fact.now }
{
    match fact {
        ShownFact::Opened(_, address) => address.is_regular(),
        ShownFact::Pool(_, event) => is_event(event),
        ShownFact::Granted(_, _, _) => true,
        ShownFact::Ended(_, end) => is_end(end),
        ShownFact::Raised(_, _, error) => is_error(error),
        ShownFact::Sdam(_) => true,
        ShownFact::CheckNow(address) => address.is_regular(),
        ShownFact::Cancel(address) => address.is_regular(),
    }
}

fn number(number: &u32)
    ensures { number.now < 2 ^ 32 }
{
    let _number = *number;
}

fn fact_types(fact: &ShownFact)
    ensures { IsFactOfTypes fact.now }
{
    match fact {
        ShownFact::Opened(p, _) => number(p),
        ShownFact::Pool(p, event) => {
            number(p);
            event_types(event);
        }
        ShownFact::Granted(r, p, c) => {
            let _numbers = (*r, *p, *c);
        }
        ShownFact::Ended(r, end) => {
            number(r);
            end_types(end);
        }
        ShownFact::Raised(p, service, error) => {
            number(p);
            optional_id(*service);
            error_types(error);
        }
        _ => {}
    }
}

fn tells_event(alloc: Global, fact: &ShownFact) -> Result<bool, OutOfMemory>
    ensures yes { IfOk result (λ so. so ≡ true → TellsEvent fact.now) }
    ensures no { IfOk result (λ so. TellsEvent fact.now → so ≡ true) }
{
    match fact {
        ShownFact::Sdam(event) => is_sdam(alloc, event.as_str()),
        _ => Ok(true),
    }
}

/// An entry shows such a fact: addresses and errors keep their rules, and the text of an event is one.
pub fn is_shown_fact(alloc: Global, fact: &ShownFact) -> Result<bool, OutOfMemory>
    ensures yes { IfOk result (λ so. so ≡ true → IsFact fact.now) }
    ensures no { IfOk result (λ so. IsFact fact.now → so ≡ true) }
{
    fact_types(fact);
    let tells = tells_event(alloc, fact)?;
    Ok(is_fact(fact) && tells)
}

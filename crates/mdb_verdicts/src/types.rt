//! That the numbers of a log are those of their types.

ghost use Rattle.std.specs.Prelude.{◌≡◌, ◌<◌, ◌^◌, IfSome, FitsSigned};
ghost use Rattle.std.specs.Int.{w64};
ghost use Rattle.std.specs.List.{AllByRecursion};
ghost use Rattle.mdb_event_reading.specs.SdamTexts.{IsShownOfTypes};
ghost use Rattle.mdb_event_reading.specs.OfEvents.{shown_of_sdam};
ghost use Rattle.mdb_entries.specs.Facts.{IsFactOfTypes};
ghost use Rattle.mdb_entries.specs.OfLog.{shown_of_fact};
ghost use Rattle.mdb_entries.specs.Answers.{IsEventOfTypes, IsFactTyped, IsTyped};

use mdb_entries::reply_types;
use mdb_event_reading::{end_types, event_types};
use mdb_events::{Fact, SdamEvent};
use mdb_log::{Entry, Log};
use mdb_parts::error_types;
use mdb_parts::number_types::{optional_id, signed};

fn number(_number: u32)
    ensures { _number < 2 ^ 32 }
{}

fn duration(_number: u64)
    ensures { _number < 2 ^ 64 }
{}

// The numbers of an event are those of its types.
fn sdam_types(event: &SdamEvent)
    ensures { IsShownOfTypes (shown_of_sdam event.now) }
{
    match event {
        SdamEvent::TopologyDescriptionChanged(e) => {
            let _count = e.previous_description.servers().len();
            let _size = e.new_description.servers().len();
        }
        SdamEvent::ServerHeartbeatStarted(e) => {
            number(e.driver_connection_id);
            signed(e.server_connection_id);
        }
        SdamEvent::ServerHeartbeatSucceeded(e) => {
            duration(e.duration);
            number(e.driver_connection_id);
            signed(e.server_connection_id);
        }
        SdamEvent::ServerHeartbeatFailed(e) => {
            duration(e.duration);
            number(e.driver_connection_id);
            signed(e.server_connection_id);
            error_types(&e.failure);
        }
        _ => {}
    }
}

fn fact_types(fact: &Fact)
    ensures own { IsFactOfTypes (shown_of_fact fact.now) }
    ensures event { IsEventOfTypes fact.now }
{
    match fact {
        Fact::Opened(pool, _) => number(*pool),
        Fact::Pool(pool, event) => {
            number(*pool);
            event_types(event);
        }
        Fact::Granted(party, pool, id) => {
            number(*party);
            number(*pool);
            number(*id);
        }
        Fact::Ended(request, end) => {
            number(*request);
            end_types(end);
        }
        Fact::Raised(pool, service, error) => {
            number(*pool);
            optional_id(*service);
            error_types(error.get());
        }
        Fact::Sdam(event) => sdam_types(event.get()),
        _ => {}
    }
}

fn facts_types(facts: &[Fact])
    ensures { AllByRecursion IsFactTyped facts.now }
{
    for fact in facts {
        fact_types(fact);
    }
}

fn entry_types(entry: &Entry)
    ensures { IsTyped entry.now }
{
    reply_types(&entry.reply);
    facts_types(entry.facts.as_slice());
}

/// The numbers of each entry are those of their types. Reads the log once.
pub fn log_types(log: &Log)
    ensures { AllByRecursion IsTyped log.now }
{
    let entries = log.entries();
    for entry in entries {
        entry_types(entry);
    }
}

//! Which call a kind of case makes.

use crate::monitor::Monitor;
use crate::topologies::Topology;
use crate::{base, bson, deliveries, events, hello, monitor, servers, srv, topologies};
use mdb_cases::Page;

/// What the cases of sequences are about: what the last `open` of each made.
#[derive(Drop)]
pub struct Cases {
    topology: Option<Topology>,
    monitor: Option<Monitor>,
}

impl Cases {
    pub fn new() -> Cases {
        Cases {
            topology: None,
            monitor: None,
        }
    }

    /// Puts on the page what the call of this kind answers.
    pub fn answer(&mut self, page: &mut Page, kind: &str, given: &str) {
        match kind {
            "describe" => topologies::follow(page, &mut self.topology, given),
            "server" => servers::answer(page, given),
            "monitor" => monitor::follow(page, &mut self.monitor, given),
            _ => of_events(page, kind, given),
        }
    }
}

fn of_base(page: &mut Page, kind: &str, given: &str) {
    match kind {
        "base" => base::answer(page, given),
        "address" => base::address(page, given),
        "id" => base::id(page, given),
        "error" => base::error(page, given),
        "same-address" => base::same_address(page, given),
        "newer" => base::newer(page, given),
        "options" => base::options(page, given),
        "source" => base::source(page, given),
        "sink" => base::sink(page, given),
        "acknowledge" => base::acknowledge(page, given),
        _ => page.put("malformed"),
    }
}

fn of_replies(page: &mut Page, kind: &str, given: &str) {
    match kind {
        "bson" => bson::answer(page, given),
        "hello" => hello::answer(page, given),
        "greet" => hello::greet(page, given),
        "exchange" => hello::exchange(page, given),
        "srv" => srv::answer(page, given),
        "txt" => srv::txt(page, given),
        "lookups" => srv::lookups(page, given),
        _ => of_base(page, kind, given),
    }
}

fn of_events(page: &mut Page, kind: &str, given: &str) {
    match kind {
        "events" => events::answer(page, given),
        "event" => events::event(page, given),
        "fact" => events::fact(page, given),
        "deliver" => deliveries::deliver(page, given),
        _ => of_replies(page, kind, given),
    }
}

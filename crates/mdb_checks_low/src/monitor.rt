//! Cases of mdb_monitor.

use crate::hello::document;
use mdb_base::{Document, Error, ErrorKind, ServerAddress};
use mdb_cases::{Page, down, named, number, parted, small, some_version, value_of};
use mdb_events::SdamEvent;
use mdb_hello::{HelloCommandResponse, HelloReply};
use mdb_monitor::{
    Begin, CancellationReason, CheckCount, CheckResult, DEFAULT_HEARTBEAT_FREQUENCY, Finish,
    MIN_HEARTBEAT_FREQUENCY, MonitorCore, Report, RttInfo, ServerMonitoringMode, allow_streaming,
};
use std::mem;

/// A monitor, and the watchers who ask for a check.
#[derive(Drop)]
pub struct Monitor {
    core: MonitorCore,
    asking: CheckCount,
}

// A monitor of this server, whose checks are 10 apart and have 20 for a connection.
fn open(page: &mut Page, given: &str) -> Option<Monitor> {
    let (address, mode) = parted(given);
    let address = page.address(address)?;
    let core = MonitorCore::new(address, mode == "streaming", 10, 20);
    Some(Monitor {
        core,
        asking: CheckCount::new(page.alloc),
    })
}

fn show_begin(page: &mut Page, begin: &Begin) {
    page.debug(&begin.action);
    page.put(" by ");
    page.show(&begin.driver_connection_id);
    page.put(" within ");
    page.show(&begin.timeout);
    page.put_if(begin.awaited, " awaited");
    page.put(" | ");
    page.show(&begin.event);
}

fn begin(page: &mut Page, core: &mut MonitorCore, fresh: u32) {
    if core.running() {
        page.put("malformed");
        return;
    }
    let begun = core.begin(page.alloc, fresh);
    match &begun {
        Ok(begin) => show_begin(page, begin),
        Err(_) => page.fail(),
    }
    drop(begun);
}

fn response(words: &str) -> HelloCommandResponse {
    let mut response = HelloCommandResponse::default();
    response.topology_version = some_version(value_of(words, "version"));
    response.connection_id = value_of(words, "server").parse::<i64>().ok();
    response
}

fn reply(page: &mut Page, server_address: ServerAddress, words: &str) -> HelloReply {
    HelloReply {
        server_address,
        command_response: response(words),
        raw_command_response: Document::new(document(page, words)),
        cluster_time: None,
    }
}

fn failure(page: &mut Page, words: &str) -> Error {
    let mut error = down(page);
    match value_of(words, "kind") {
        "timeout" => error.kind = ErrorKind::NetworkTimeout,
        "auth" => error.kind = ErrorKind::Auth,
        _ => {}
    }
    error
}

fn outcome(page: &mut Page, address: ServerAddress, kind: &str, words: &str) -> CheckResult {
    match kind {
        "ok" => CheckResult::Ok(
            reply(page, address, words),
            value_of(words, "more") == "true",
        ),
        "cancelled" => CheckResult::Cancelled(failure(page, words)),
        _ => CheckResult::Err(failure(page, words)),
    }
}

fn show_report(page: &mut Page, report: &Report) {
    match report {
        Report::Update(_, average) => {
            page.put("Update ");
            page.show(average);
        }
        Report::Error(error) => {
            page.put("Error ");
            page.show(error);
        }
        Report::Nothing => page.put("Nothing"),
    }
}

fn show_document(page: &mut Page, event: &SdamEvent) {
    if let SdamEvent::ServerHeartbeatSucceeded(succeeded) = event {
        page.put(" | ");
        page.debug(succeeded.reply.as_doc());
    }
}

fn show_finish(page: &mut Page, finish: &Finish) {
    show_report(page, &finish.report);
    page.put(", ");
    page.debug(&finish.next);
    page.put(" | ");
    page.show(&finish.event);
    show_document(page, &finish.event);
}

fn finish(page: &mut Page, core: &mut MonitorCore, given: &str) {
    if !core.running() {
        page.put("malformed");
        return;
    }
    let Some(address) = page.address("a:1") else {
        return;
    };
    let (kind, words) = parted(given);
    let duration = number(value_of(words, "ns"));
    let available = value_of(words, "new") != "true";
    let outcome = outcome(page, address, kind, words);
    let finished = core.finish(page.alloc, duration, outcome, available);
    match &finished {
        Ok(finish) => show_finish(page, finish),
        Err(_) => page.fail(),
    }
    drop(finished);
}

fn tell(page: &mut Page, core: &MonitorCore) {
    page.put(if core.connected() {
        "connected"
    } else {
        "unconnected"
    });
    page.put_if(core.running(), " running");
}

fn want(page: &mut Page, asking: &mut CheckCount, watcher: u32) {
    match asking.want(page.alloc, watcher) {
        Ok(count) => page.show(&count),
        Err(_) => page.fail(),
    }
}

fn step(page: &mut Page, monitor: &mut Monitor, kind: &str, given: &str) {
    match kind {
        "begin" => begin(page, &mut monitor.core, small(given)),
        "finish" => finish(page, &mut monitor.core, given),
        "rtt" => page.show(&monitor.core.rtt_sample(number(given))),
        "want" => want(page, &mut monitor.asking, small(given)),
        "unwant" => page.show(&monitor.asking.unwant(small(given))),
        "count" => page.show(&monitor.asking.count()),
        _ => tell(page, &monitor.core),
    }
}

// `average 7,4`: the average after each of these samples.
fn average(page: &mut Page, given: &str) {
    let samples = page.numbers(given);
    let mut round_trips = RttInfo::default();
    for sample in &samples {
        round_trips.add_sample(*sample);
        page.show(&round_trips.average.unwrap_or(0));
        page.put(".");
    }
}

const MODES: [(&str, ServerMonitoringMode); 3] = [
    ("stream", ServerMonitoringMode::Stream),
    ("poll", ServerMonitoringMode::Poll),
    ("auto", ServerMonitoringMode::Auto),
];

// `streams auto faas`: whether a monitor of this mode may wait for answers, here in a function as a service.
fn streams(page: &mut Page, given: &str) {
    let (word, place) = parted(given);
    let mode = named(&MODES, word).unwrap_or_default();
    page.answer(allow_streaming(mode, place == "faas"));
}

// The usual time between two checks, and the least one.
fn heartbeats(page: &mut Page) {
    page.show(&DEFAULT_HEARTBEAT_FREQUENCY);
    page.put(" ");
    page.show(&MIN_HEARTBEAT_FREQUENCY);
}

// `cancellation network`, `cancellation closed`: the reason.
fn cancellation(page: &mut Page, given: &str) {
    let reason = if given == "closed" {
        CancellationReason::ServerClosed
    } else {
        CancellationReason::from(down(page))
    };
    show_reason(page, &reason);
    drop(reason);
}

fn show_reason(page: &mut Page, reason: &CancellationReason) {
    match reason {
        CancellationReason::Error(error) => page.show(error),
        CancellationReason::ServerClosed => page.put("closed"),
    }
}

fn follow_opened(page: &mut Page, monitor: &mut Option<Monitor>, kind: &str, given: &str) {
    if kind == "open" {
        let before = mem::replace(monitor, open(page, given));
        drop(before);
    }
    if let Some(monitor) = monitor {
        step(page, monitor, kind, given);
    }
}

/// `average 7,4`, `streams auto faas`, `heartbeats`, `cancellation network`; `open a:1 streaming`, and of the monitor that it made `begin 3`,
/// `finish ok ns=7 server=5`, `finish failed ns=7`, `finish cancelled ns=7`: what is told of the check; `rtt 4`: the average; `want 5`, `unwant 5`,
/// `count`: how many watchers ask; and `tell`: whether it is connected, and whether a check runs.
pub fn follow(page: &mut Page, monitor: &mut Option<Monitor>, given: &str) {
    let (kind, given) = parted(given);
    match kind {
        "average" => average(page, given),
        "streams" => streams(page, given),
        "heartbeats" => heartbeats(page),
        "cancellation" => cancellation(page, given),
        _ => follow_opened(page, monitor, kind, given),
    }
}

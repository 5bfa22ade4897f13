//! Cases of mdb_describe: topologies.

use crate::servers::server;
use mdb_base::{ClusterTime, Items, TagSet, Text};
use mdb_cases::{Page, made_options, named, number, parted, tell_server, tell_topology};
use mdb_describe::{
    Diff, Mode, ReadPreference, SelectionCriteria, ServerDescription, TopologyDescription,
};
use std::mem;

/// A topology as it was opened, and as it is.
#[derive(Drop)]
pub struct Topology {
    opened: TopologyDescription,
    now: TopologyDescription,
}

// The topology that is opened; none where memory is short.
fn open(page: &mut Page, given: &str) -> Option<Topology> {
    let options = made_options(page, given);
    let opened = TopologyDescription::initialize(page.alloc, &options);
    let now = TopologyDescription::initialize(page.alloc, &options);
    drop(options);
    match (opened, now) {
        (Ok(opened), Ok(now)) => Some(Topology { opened, now }),
        _ => {
            page.fail();
            None
        }
    }
}

fn maxima(page: &mut Page, topology: &TopologyDescription) {
    page.show(&topology.max_set_version().unwrap_or(0));
    page.put(" ");
    match topology.max_election_id() {
        Some(id) => page.show(&id),
        None => page.put("none"),
    }
}

const MODES: [(&str, Mode); 4] = [
    ("Primary", Mode::Primary),
    ("Secondary", Mode::Secondary),
    ("PrimaryPreferred", Mode::PrimaryPreferred),
    ("SecondaryPreferred", Mode::SecondaryPreferred),
];

fn tag_set(page: &mut Page, name: &str, value: &str) -> Option<TagSet> {
    let mut pairs: Vec<(Text, Text)> = Vec::new(page.alloc);
    let pair = (page.text(name), page.text(value));
    page.keep(&mut pairs, pair);
    TagSet::new(Items::new(pairs))
}

fn tag_sets(page: &mut Page, word: &str) -> Items<TagSet> {
    let mut sets = Vec::new(page.alloc);
    if let Some((name, value)) = word.split_once('=') {
        match tag_set(page, name, value) {
            Some(set) => page.keep(&mut sets, set),
            None => page.put("malformed"),
        }
    }
    Items::new(sets)
}

// A mode, or a mode with a tag.
fn readable(page: &mut Page, topology: &TopologyDescription, given: &str) {
    let (word, tag) = parted(given);
    let criteria = SelectionCriteria::ReadPreference(ReadPreference {
        mode: named(&MODES, word).unwrap_or(Mode::Nearest),
        tag_sets: tag_sets(page, tag),
    });
    page.answer(topology.has_readable_server(Some(&criteria)));
    drop(criteria);
}

fn show_diff(page: &mut Page, diff: &Diff) {
    page.put("changed");
    page.show_all(diff.changed.as_slice());
    page.put(" removed");
    page.show_all(diff.removed.as_slice());
    page.put(" added");
    page.show_all(diff.added.as_slice());
}

fn diff(page: &mut Page, topology: &Topology) {
    let found = topology.opened.diff(page.alloc, &topology.now);
    match &found {
        Ok(Some(diff)) => show_diff(page, diff),
        Ok(None) => page.put("none"),
        Err(_) => page.fail(),
    }
    drop(found);
}

fn advance(page: &mut Page, topology: &mut TopologyDescription, to: u64) {
    topology.advance_cluster_time(ClusterTime(to));
    match topology.cluster_time() {
        Some(time) => page.show(&time.0),
        None => page.put("none"),
    }
}

fn update(page: &mut Page, topology: &mut TopologyDescription, given: &str) {
    if let Some(server) = server(page, given) {
        if topology.update(page.alloc, server).is_err() {
            page.fail();
        }
    }
    tell_topology(page, topology);
}

// A description that says again what is known takes its place; of another one nothing is kept.
fn keep(page: &mut Page, topology: &mut TopologyDescription, server: ServerDescription) {
    match topology.is_repeated(page.alloc, &server) {
        Ok(true) => {
            page.put("again ");
            topology.store(page.alloc, server);
        }
        Ok(false) => {
            page.put("new ");
            drop(server);
        }
        Err(_) => {
            page.fail();
            drop(server);
        }
    }
}

fn store(page: &mut Page, topology: &mut TopologyDescription, given: &str) {
    if let Some(server) = server(page, given) {
        keep(page, topology, server);
    }
    tell_topology(page, topology);
}

fn sync(page: &mut Page, topology: &mut TopologyDescription, given: &str) {
    let hosts = page.addresses(given);
    if topology.sync_hosts(page.alloc, &hosts).is_err() {
        page.fail();
    }
    drop(hosts);
    tell_topology(page, topology);
}

fn stop(page: &mut Page, topology: &mut TopologyDescription) {
    topology.stop();
    tell_topology(page, topology);
}

// The server of this address: its type, and the counter of its version.
fn server_of(page: &mut Page, topology: &TopologyDescription, given: &str) {
    let Some(address) = page.address(given) else {
        return;
    };
    match topology.server(&address) {
        Some(server) => {
            tell_server(page, server);
            page.put_if(server.topology_version().is_some(), " with a version");
        }
        None => page.put("none"),
    }
}

// What a copy of it tells.
fn copy(page: &mut Page, topology: &TopologyDescription) {
    let copied: Result<_, _> = topology.clone();
    match &copied {
        Ok(copy) => tell_topology(page, copy),
        Err(_) => page.fail(),
    }
    drop(copied);
}

fn step(page: &mut Page, topology: &mut Topology, kind: &str, given: &str) {
    match kind {
        "update" => update(page, &mut topology.now, given),
        "store" => store(page, &mut topology.now, given),
        "sync" => sync(page, &mut topology.now, given),
        "stop" => stop(page, &mut topology.now),
        "maxima" => maxima(page, &topology.now),
        "writable" => page.answer(topology.now.has_writable_server()),
        "readable" if given == "any" => page.answer(topology.now.has_readable_server(None)),
        "readable" => readable(page, &topology.now, given),
        "diff" => diff(page, topology),
        "copy" => copy(page, &topology.now),
        "timeout" => page.debug(&topology.now.logical_session_timeout()),
        "error" => page.put(topology.now.compatibility_error().unwrap_or("none")),
        "server" => server_of(page, &topology.now, given),
        "advance" => advance(page, &mut topology.now, number(given)),
        _ => tell_topology(page, &topology.now),
    }
}

/// `open a:1 set=foo`, and of the topology that it opened `update a:1 mongos`, `sync a:1,b:1`, `stop`: the topology
/// after it, `store a:1 mongos` with `again` or `new` first; and what it answers to `maxima`, `writable`,
/// `readable Primary`, `diff`, `timeout`, `error`, `server a:1` and `advance 7`.
pub fn follow(page: &mut Page, topology: &mut Option<Topology>, given: &str) {
    let (kind, given) = parted(given);
    if kind == "open" {
        let before = mem::replace(topology, open(page, given));
        drop(before);
    }
    if let Some(topology) = topology {
        step(page, topology, kind, given);
    }
}

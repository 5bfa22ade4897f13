//! Cases of mdb_srv.

use mdb_base::{Items, Text};
use mdb_cases::{Page, number, parted, small, value_of};
use mdb_srv::{
    DomainMismatch, LookupHosts, MemRecords, MemResolver, ResolvedConfig, SrvError, SrvRecord,
    SrvResolver, TopologyType, TxtRecord, on_lookup, rescan_interval, select_hosts, should_poll,
};

const HOST: &str = "cluster.example.com";

fn refuse(page: &mut Page, e: &SrvError) {
    match e {
        SrvError::DnsResolve(text) => page.show(text),
        SrvError::ResolverFault => page.put("fault"),
        SrvError::OutOfMemory => page.fail(),
    }
}

// The time to live and the hosts.
fn show_hosts(page: &mut Page, found: &LookupHosts) {
    page.show(&found.min_ttl);
    page.show_all(found.hosts.as_slice());
}

fn show_found(page: &mut Page, found: &Result<LookupHosts, SrvError>) {
    match found {
        Ok(found) => show_hosts(page, found),
        Err(e) => refuse(page, e),
    }
}

// `srv select max=2 known=a:1,b:1 found=c:1,a:1`: the hosts that are taken.
fn select(page: &mut Page, given: &str) {
    let known = page.addresses(value_of(given, "known"));
    let found = page.addresses(value_of(given, "found"));
    let max = small(value_of(given, "max"));
    let taken = select_hosts(page.alloc, &known, &found, max);
    match &taken {
        Ok(taken) => page.show_all(taken),
        Err(_) => page.fail(),
    }
    drop(taken);
    drop(known);
    drop(found);
}

// `srv rescan 5`: after how many seconds.
fn rescan(page: &mut Page, given: &str) {
    page.show(&rescan_interval(number(given)));
}

// What a lookup found with a time to live of so many seconds.
fn found(page: &mut Page, given: &str, min_ttl: u32) -> LookupHosts {
    LookupHosts {
        hosts: Items::new(page.addresses(value_of(given, "hosts"))),
        min_ttl,
    }
}

// `srv interval failed`, `srv interval hosts=a:1`: the seconds after a lookup with a time to live of 300, where a heartbeat takes
// 10.
fn interval(page: &mut Page, given: &str) {
    let found = found(page, given, 300);
    if given == "failed" {
        page.show(&on_lookup(Err(()), 10));
    } else {
        page.show(&on_lookup(Ok(&found), 10));
    }
    drop(found);
}

// `srv polls Sharded`: whether such a topology is.
fn polls(page: &mut Page, given: &str) {
    match given {
        "Sharded" => page.answer(should_poll(TopologyType::Sharded)),
        "Single" => page.answer(should_poll(TopologyType::Single)),
        _ => page.put("malformed"),
    }
}

fn mode(given: &str) -> DomainMismatch {
    if given.starts_with("skip ") {
        DomainMismatch::Skip
    } else {
        DomainMismatch::Error
    }
}

// `srv accept skip of=HOST hosts=a:1,b:1`: what becomes of these hosts.
fn accept(page: &mut Page, given: &str) {
    let found = found(page, given, 9);
    let answer = found.validate(page.alloc, value_of(given, "of"), mode(given));
    show_found(page, &answer);
    drop(answer);
}

// A record whose text comes in two pieces.
fn txt_record(page: &mut Page, words: &str) -> TxtRecord {
    let (front, back) = words.as_bytes().split_at(words.len() / 2);
    let mut pieces = Vec::new(page.alloc);
    for piece in [front, back] {
        match Vec::from_slice(page.alloc, piece) {
            Ok(bytes) => page.keep(&mut pieces, Items::new(bytes)),
            Err(_) => page.fail(),
        }
    }
    TxtRecord {
        txt_data: Items::new(pieces),
    }
}

fn srv_entry(page: &mut Page) -> MemRecords {
    let mut srv = Vec::new(page.alloc);
    let record = SrvRecord {
        target: page.text("a.example.com."),
        port: 27017,
        ttl: 60,
    };
    page.keep(&mut srv, record);
    MemRecords {
        query: page.text("_mongodb._tcp.cluster.example.com"),
        srv: Items::new(srv),
        txt: Items::new(Vec::new(page.alloc)),
    }
}

// The entry of the host: a TXT record for each text, with blanks between.
fn txt_entry(page: &mut Page, texts: &str) -> MemRecords {
    let mut txt = Vec::new(page.alloc);
    for words in texts.split(' ') {
        let record = txt_record(page, words);
        page.keep(&mut txt, record);
    }
    MemRecords {
        query: page.text(HOST),
        srv: Items::new(Vec::new(page.alloc)),
        txt: Items::new(txt),
    }
}

// A resolver with one SRV record of the host, and these TXT records, that fails at these calls.
fn resolver(page: &mut Page, texts: Option<&str>, fails: Vec<u64>) -> SrvResolver<MemResolver> {
    let mut records = Vec::new(page.alloc);
    let srv = srv_entry(page);
    page.keep(&mut records, srv);
    if let Some(texts) = texts {
        let txt = txt_entry(page, texts);
        page.keep(&mut records, txt);
    }
    SrvResolver::new(MemResolver::new(records, fails), None)
}

fn show_name(page: &mut Page, name: &Option<Text>) {
    match name {
        Some(name) => page.show(name),
        None => page.put("-"),
    }
    page.put(" ");
}

// The options of a configuration.
fn show_options(page: &mut Page, config: &ResolvedConfig) {
    show_name(page, &config.auth_source);
    show_name(page, &config.replica_set);
    page.put(match config.load_balanced {
        Some(true) => "true",
        Some(false) => "false",
        None => "-",
    });
}

fn show_config(page: &mut Page, config: &ResolvedConfig) {
    page.show(&config.min_ttl);
    page.show_all(config.hosts.as_slice());
    page.put(" ");
    show_options(page, config);
}

// The whole configuration: the hosts, and then the options.
fn resolve(page: &mut Page, resolver: &mut SrvResolver<MemResolver>) {
    let resolved = resolver.resolve_client_options(page.alloc, HOST);
    match &resolved {
        Ok(config) => show_config(page, config),
        Err(e) => refuse(page, e),
    }
    drop(resolved);
}

/// `txt`, `txt of TEXT TEXT`: the time to live, the hosts and the options of the host where it has these TXT records.
pub fn txt(page: &mut Page, given: &str) {
    let none = Vec::new(page.alloc);
    let mut resolver = resolver(page, given.strip_prefix("of "), none);
    resolve(page, &mut resolver);
    drop(resolver);
}

fn named_config(page: &mut Page) -> ResolvedConfig {
    ResolvedConfig {
        hosts: Items::new(Vec::new(page.alloc)),
        min_ttl: 1,
        auth_source: None,
        replica_set: Some(page.text("rs1")),
        load_balanced: None,
    }
}

fn show_set(page: &mut Page, set: &Result<(), SrvError>) {
    page.put(" ");
    match set {
        Ok(()) => page.put("set"),
        Err(e) => refuse(page, e),
    }
    page.put(".");
}

// What a lookup of the options makes of a configuration with one option.
fn configure(page: &mut Page, resolver: &mut SrvResolver<MemResolver>) {
    let mut config = named_config(page);
    let set = resolver.get_txt_options(page.alloc, HOST, &mut config);
    show_options(page, &config);
    drop(config);
    show_set(page, &set);
    drop(set);
}

fn look_up(page: &mut Page, resolver: &mut SrvResolver<MemResolver>) {
    let found = resolver.get_srv_hosts(page.alloc, HOST, DomainMismatch::Error);
    show_found(page, &found);
    drop(found);
    page.put(".");
}

/// `lookups fails=1,3 txt txt srv srv`: what each lookup finds, where the host has the TXT record `authSource=db`.
pub fn lookups(page: &mut Page, given: &str) {
    let fails = page.numbers(value_of(given, "fails"));
    let mut resolver = resolver(page, Some("authSource=db"), fails);
    for word in given.split(' ') {
        match word {
            "txt" => configure(page, &mut resolver),
            "srv" => look_up(page, &mut resolver),
            "all" => {
                resolve(page, &mut resolver);
                page.put(".");
            }
            _ => {}
        }
    }
    drop(resolver);
}

/// `srv select ..`, `srv rescan ..`, `srv interval ..`, `srv polls ..`, `srv accept ..`.
pub fn answer(page: &mut Page, given: &str) {
    let (kind, given) = parted(given);
    match kind {
        "select" => select(page, given),
        "rescan" => rescan(page, given),
        "interval" => interval(page, given),
        "polls" => polls(page, given),
        "accept" => accept(page, given),
        _ => page.put("malformed"),
    }
}

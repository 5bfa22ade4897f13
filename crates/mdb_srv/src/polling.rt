//! When SRV records are looked up again, and which of the found hosts are taken
//! ("Polling SRV Records for mongos Discovery").
ghost use Rattle.std.specs.Prelude.{◌≡◌, IfOk, MatchResult, map, max, take};
ghost use Rattle.mdb_srv.specs.Polling.{interval_after, selected_hosts, known_first, is_known};

use super::LookupHosts;
use mdb_base::{OutOfMemory, ServerAddress};
use std::alloc::{AllocError, Global};

/// The least number of seconds between two lookups.
const MIN_RESCAN_INTERVAL: u64 = 60;

/// After how many seconds the records are looked up again, where their time to live is `seconds`: no lookup comes
/// sooner than 60 seconds after the one before.
pub fn rescan_interval(seconds: u64) -> u64
    ensures { result ≡ max seconds 60 }
{
    seconds.max(MIN_RESCAN_INTERVAL)
}

/// The next interval in seconds, after a lookup that found these hosts or failed: the time to live of what was
/// found, or the seconds between two heartbeats where the lookup failed or found no host.
pub fn on_lookup(found: Result<&LookupHosts, ()>, heartbeat: u64) -> u64
    ensures { MatchResult found.entry
        (λ list. result ≡ interval_after list.now.hosts list.now.min_ttl heartbeat)
        (λ _. result ≡ heartbeat) }
{
    match found {
        Ok(found) if !found.hosts.as_slice().is_empty() => u64::from(found.min_ttl),
        _ => heartbeat,
    }
}

/// Which of the found hosts are taken, where at most `max` are wanted and 0 stands for no limit: those of `found`
/// that are known already come first, then the others, each in the order in which they were found.
pub fn select_hosts(
    alloc: Global,
    known: &[ServerAddress],
    found: &[ServerAddress],
    max: u32,
) -> Result<Vec<ServerAddress>, OutOfMemory>
    ensures { IfOk result (λ hosts. hosts.items ≡ selected_hosts known.now found.now max) }
{
    if max == 0 || found.len() <= max as usize {
        let all: Vec<&ServerAddress> = found.iter().collect(alloc)?;
        return Ok(copies(alloc, &all)?);
    }
    let chosen = known_first(alloc, known, found, max as usize)?;
    Ok(copies(alloc, &chosen)?)
}

// The first `count` of the found hosts, with those that are known before the others.
fn known_first<'a>(
    alloc: Global,
    known: &[ServerAddress],
    found: &'a [ServerAddress],
    count: usize,
) -> Result<Vec<&'a ServerAddress>, AllocError>
    ensures { IfOk result (λ hosts. map (λ host. host.now) hosts.items
        ≡ take count (known_first known.now found.now)) }
{
    let old = found.iter().filter(|host| is_among(known, host));
    let new = found.iter().filter(|host| !is_among(known, host));
    old.chain(new).take(count).collect(alloc)
}

// Whether this host is one of the known ones.
fn is_among(known: &[ServerAddress], host: &ServerAddress) -> bool
    ensures { result ≡ is_known known.now host.now }
{
    known.iter().any(|other| other.is(host))
}

// The hosts themselves.
fn copies(alloc: Global, hosts: &[&ServerAddress]) -> Result<Vec<ServerAddress>, AllocError>
    ensures { IfOk result (λ copies. copies.items ≡ map (λ host. host.now) hosts.now) }
{
    let mut copies = Vec::with_capacity(alloc, hosts.len())?;
    for host in hosts {
        copies.push(ServerAddress::clone(host)?)?;
    }
    Ok(copies)
}

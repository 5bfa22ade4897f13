//! What SRV records say, and under which name they stand.
ghost use Rattle.std.specs.Prelude.{◌≡◌, IfOk, string_bytes};
ghost use Rattle.mdb_srv.specs.Srv as srv;

use super::{LookupHosts, SrvRecord};
use mdb_base::{Items, ServerAddress, Text};
use std::alloc::{AllocError, Global};

/// The service that is asked for where no other is named.
const DEFAULT_SERVICE: &str = "mongodb";

// The name under which the SRV records of a host stand.
pub(crate) fn srv_query(
    alloc: Global,
    service: &Option<Text>,
    host: &str,
) -> Result<String, AllocError>
    ensures { IfOk result (λ query. string_bytes query ≡ srv.srv_query service.now host.now) }
{
    let service = match service {
        Some(name) => name.as_str(),
        None => DEFAULT_SERVICE,
    };
    format!(in alloc; "_{service}._tcp.{host}")
}

// The hosts that the records name, and the least of their times to live.
pub(crate) fn found_hosts(alloc: Global, records: Vec<SrvRecord>) -> Result<LookupHosts, AllocError>
    ensures hosts { IfOk result (λ found. found.hosts ≡ srv.hosts_of records.items) }
    ensures ttl { IfOk result (λ found. found.min_ttl ≡ srv.least_ttl records.items) }
{
    let min_ttl = least_ttl(&records);
    let hosts = hosts_of(alloc, records)?;
    Ok(LookupHosts {
        hosts: Items::new(hosts),
        min_ttl,
    })
}

// The least time to live, and 4294967295 where there is no record.
fn least_ttl(records: &[SrvRecord]) -> u32
    ensures { result ≡ srv.least_ttl records.now }
{
    records
        .iter()
        .fold(u32::MAX, |least, found| least.min(found.ttl))
}

fn hosts_of(alloc: Global, records: Vec<SrvRecord>) -> Result<Vec<ServerAddress>, AllocError>
    ensures { IfOk result (λ hosts. hosts.items ≡ srv.hosts_of records.items) }
{
    let mut hosts = Vec::with_capacity(alloc, records.len())?;
    for found in records {
        let host = host_of(found)?;
        hosts.push(host)?;
    }
    Ok(hosts)
}

// The host that a record names.
fn host_of(found: SrvRecord) -> Result<ServerAddress, AllocError>
    ensures { IfOk result (λ host. host ≡ srv.host_of found) }
{
    let SrvRecord { target, port, .. } = found;
    ServerAddress::new(without_dot(target.into_inner()), port)
}

// A target without one dot at its end.
fn without_dot(mut target: String) -> String
    ensures { string_bytes result ≡ srv.without_dot (string_bytes target) }
{
    if target.ends_with('.') {
        target.pop();
    }
    target
}

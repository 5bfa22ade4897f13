//! The hosts that an SRV lookup found.
ghost use Rattle.std.specs.Prelude.{◌≡◌, ◌<◌, [], length, filter, IfOk, IfErr, Ok};

use super::SrvError;
use super::accepting::accepted;
use super::refusals::no_records;
use mdb_base::{Items, ServerAddress};
use std::alloc::Global;

/// What an SRV lookup found.
#[derive(Debug, Drop)]
pub struct LookupHosts {
    /// The hosts, in the order of their records.
    pub hosts: Items<ServerAddress>,
    /// For how many seconds the records may be kept: the least of their times to live, and 4294967295 where there
    /// is no record.
    pub min_ttl: u32,
}

/// What becomes of a found host that is not in the domain of the host that was asked for.
#[derive(Clone, Copy, Debug, PartialEq, Eq)]
pub enum DomainMismatch {
    /// The whole lookup is refused.
    Error,
    /// The host is left out.
    Skip,
}

impl LookupHosts {
    ghost use Rattle.mdb_srv.specs.declared.hosts.DomainMismatch.TheVariants.{Error, Skip};
    ghost use Rattle.mdb_srv.specs.Answers.{Refuses, OnRefusal};
    ghost use Rattle.mdb_srv.specs.Hosts.{valid_hosts, matches};

    /// Accepts the hosts that are in the domain of `original_hostname`, in the order in which they were found
    /// ("Initial DNS Seedlist Discovery", and with `Skip` "Polling SRV Records for mongos Discovery"). The domain is
    /// the labels after the first of a name with three or more labels, else all of them.
    ///
    /// `DnsResolve` comes where no host is left, and with `DomainMismatch::Error` already where one host is not in
    /// that domain.
    pub fn validate(
        self,
        alloc: Global,
        original_hostname: &str,
        dm: DomainMismatch,
    ) -> Result<LookupHosts, SrvError>
        ensures hosts { IfOk result (λ found. valid_hosts original_hostname.now dm self.hosts ≡ Ok found.hosts) }
        ensures ttl { IfOk result (λ found. found.min_ttl ≡ self.min_ttl) }
        ensures refused { IfErr result (Refuses (valid_hosts original_hostname.now dm self.hosts)) }

        // In both modes exactly the hosts of the domain are accepted, in order, and there is one.
        ensures kept { IfOk result (λ found. found.hosts ≡ filter (matches original_hostname.now) self.hosts) }
        ensures some { IfOk result (λ found. 0 < length found.hosts) }

        // Without `Skip` all hosts are in the domain, and with it only a lookup with none is refused.
        ensures all { dm ≡ Error → IfOk result (λ found. found.hosts ≡ self.hosts) }
        ensures none { dm ≡ Skip → IfErr result (OnRefusal (filter (matches original_hostname.now) self.hosts ≡ [])) }
    {
        let LookupHosts { hosts, min_ttl } = self;
        let hosts = accepted(alloc, original_hostname, dm, hosts.into_inner())?;
        if hosts.is_empty() {
            return Err(no_records(alloc, original_hostname));
        }
        Ok(LookupHosts {
            hosts: Items::new(hosts),
            min_ttl,
        })
    }
}

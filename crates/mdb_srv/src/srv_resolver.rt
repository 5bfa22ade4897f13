//! The seeds and the options of a deployment, looked up.
ghost use Rattle.std.specs.Prelude.{◌≡◌, List, IfOk, IfErr, OnErr, OnOk, Ok, Some, option_map, string_bytes};
ghost use Rattle.std.specs.Result.{result_and};
ghost use Rattle.mdb_srv.specs.declared.resolver.SrvRecord.{SrvRecord};
ghost use Rattle.mdb_srv.specs.declared.resolver.TxtRecord.{TxtRecord};
ghost use Rattle.mdb_srv.specs.Lookups.{LooksHostsUp, LooksOptionsUp, Resolves};
ghost use Rattle.mdb_srv.specs.Answers.{FaultCause, RefusesOrFails};
ghost use Rattle.mdb_srv.specs.declared.hosts.DomainMismatch.TheVariants.{Error};
ghost use Rattle.mdb_srv.specs.Hosts.{valid_hosts};
ghost use Rattle.mdb_srv.specs.Srv.{srv_query, hosts_of, least_ttl};
ghost use Rattle.mdb_srv.specs.Txt.{configured, resolved};

use super::records::{found_hosts, srv_query};
use super::txt::txt_options;
use super::{DomainMismatch, LookupHosts, ResolvedConfig, Resolver, SrvError};
use mdb_base::Text;
use std::alloc::Global;

/// Finds the seeds and the options of a deployment ("Initial DNS Seedlist Discovery").
#[derive(Debug, Drop)]
pub struct SrvResolver<R> {
    /// What looks the records up.
    pub resolver: R,
    /// The service that is asked for, and `mongodb` where it is not named.
    pub srv_service_name: Option<Text>,
}

impl<R: Resolver> SrvResolver<R> {
    /// Asks `resolver` for the records of the service with this name, or of `mongodb`.
    pub fn new(resolver: R, srv_service_name: Option<String>) -> SrvResolver<R>
        ensures resolver { result.resolver ≡ resolver }
        ensures service { result.srv_service_name ≡ option_map string_bytes srv_service_name }
    {
        SrvResolver {
            resolver,
            srv_service_name: srv_service_name.map(Text::new),
        }
    }

    /// Looks up the SRV records of `original_hostname`, once, and accepts their hosts as `LookupHosts::validate` does.
    ///
    /// `DnsResolve` comes where that call refuses them, and `ResolverFault` only where the resolver failed.
    pub fn get_srv_hosts(
        &mut self,
        alloc: Global,
        original_hostname: &str,
        dm: DomainMismatch,
    ) -> Result<LookupHosts, SrvError>
        // Where the resolver tells the records:
        ensures hosts { let query = srv_query self.old.srv_service_name original_hostname.now in
            (records : List SrvRecord) → R.srv_records self.old.resolver query ≡ Some records →
            IfOk result (λ found. valid_hosts original_hostname.now dm (hosts_of records) ≡ Ok found.hosts) }
        ensures ttl { let query = srv_query self.old.srv_service_name original_hostname.now in
            (records : List SrvRecord) → R.srv_records self.old.resolver query ≡ Some records →
            IfOk result (λ found. found.min_ttl ≡ least_ttl records) }
        ensures refused { let query = srv_query self.old.srv_service_name original_hostname.now in
            (records : List SrvRecord) → R.srv_records self.old.resolver query ≡ Some records →
            IfErr result (RefusesOrFails (valid_hosts original_hostname.now dm (hosts_of records))) }

        // Whatever it tells:
        ensures once { let query = srv_query self.old.srv_service_name original_hostname.now in
            LooksHostsUp (λ r answer s. R.srv_looked r query answer s) original_hostname.now dm self.old.resolver self.new.resolver result }
        ensures cause { FaultCause (R.faults self.old.resolver) (R.faults self.new.resolver) result }
        ensures srv { R.srv_records self.new.resolver ≡ R.srv_records self.old.resolver }
        ensures txt { R.txt_records self.new.resolver ≡ R.txt_records self.old.resolver }
        ensures service { self.new.srv_service_name ≡ self.old.srv_service_name }
    {
        let query = srv_query(alloc, &self.srv_service_name, original_hostname)?;
        let records = self.resolver.srv_lookup(alloc, query.as_str())?;
        let found = found_hosts(alloc, records)?;
        found.validate(alloc, original_hostname, dm)
    }

    /// Looks up the TXT records of `original_hostname`, once, and sets the options that they name in `config`. Of two
    /// values for one option the later counts. No records change nothing.
    ///
    /// `DnsResolve` comes where there is more than one record, or where a part of the record is no option: the first
    /// such part gives the text. `ResolverFault` comes only where the resolver failed. Any error leaves `config` as
    /// it was.
    pub fn get_txt_options(
        &mut self,
        alloc: Global,
        original_hostname: &str,
        config: &mut ResolvedConfig,
    ) -> Result<(), SrvError>
        // Where the resolver tells the records:
        ensures set { (records : List TxtRecord) → R.txt_records self.old.resolver original_hostname.now ≡ Some records →
            OnOk result (configured original_hostname.now records config.old ≡ Ok config.new) }
        ensures refused { (records : List TxtRecord) → R.txt_records self.old.resolver original_hostname.now ≡ Some records →
            IfErr result (RefusesOrFails (configured original_hostname.now records config.old)) }

        // Whatever it tells:
        ensures once { LooksOptionsUp (λ r answer s. R.txt_looked r original_hostname.now answer s) original_hostname.now config.old
            self.old.resolver self.new.resolver (result_and result (Ok config.new)) }
        ensures unchanged { OnErr result (config.new ≡ config.old) }
        ensures cause { FaultCause (R.faults self.old.resolver) (R.faults self.new.resolver) result }
        ensures srv { R.srv_records self.new.resolver ≡ R.srv_records self.old.resolver }
        ensures txt { R.txt_records self.new.resolver ≡ R.txt_records self.old.resolver }
        ensures service { self.new.srv_service_name ≡ self.old.srv_service_name }
    {
        let records = self.resolver.txt_lookup(alloc, original_hostname)?;
        let options = txt_options(alloc, original_hostname, records)?;
        config.set_all(options);
        Ok(())
    }

    /// Looks up the seeds of a deployment and its options: the SRV records of `hostname`, whose hosts must all be in
    /// its domain, and then, where they are accepted, its TXT records.
    ///
    /// `DnsResolve` and `ResolverFault` come as from the two lookups.
    pub fn resolve_client_options(
        &mut self,
        alloc: Global,
        hostname: &str,
    ) -> Result<ResolvedConfig, SrvError>
        // Where the resolver tells the records:
        ensures found { let query = srv_query self.old.srv_service_name hostname.now in
            (srv : List SrvRecord) (txt : List TxtRecord)
            → R.srv_records self.old.resolver query ≡ Some srv → R.txt_records self.old.resolver hostname.now ≡ Some txt →
            IfOk result (λ config. resolved hostname.now srv txt ≡ Ok config) }
        ensures refused { let query = srv_query self.old.srv_service_name hostname.now in
            (srv : List SrvRecord) (txt : List TxtRecord)
            → R.srv_records self.old.resolver query ≡ Some srv → R.txt_records self.old.resolver hostname.now ≡ Some txt →
            IfErr result (RefusesOrFails (resolved hostname.now srv txt)) }

        // Whatever it tells:
        ensures order { let query = srv_query self.old.srv_service_name hostname.now in
            Resolves (λ r answer s. R.srv_looked r query answer s) (λ r answer s. R.txt_looked r hostname.now answer s) hostname.now
            self.old.resolver self.new.resolver result }
        ensures cause { FaultCause (R.faults self.old.resolver) (R.faults self.new.resolver) result }
        ensures srv { R.srv_records self.new.resolver ≡ R.srv_records self.old.resolver }
        ensures txt { R.txt_records self.new.resolver ≡ R.txt_records self.old.resolver }
        ensures service { self.new.srv_service_name ≡ self.old.srv_service_name }
    {
        let found = self.get_srv_hosts(alloc, hostname, DomainMismatch::Error)?;
        let mut config = ResolvedConfig::plain(found);
        self.get_txt_options(alloc, hostname, &mut config)?;
        Ok(config)
    }
}

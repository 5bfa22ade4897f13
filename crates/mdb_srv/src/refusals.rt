//! The refusals of a lookup, with their exact texts.
ghost use Rattle.std.specs.Prelude.{◌≡◌, MatchResult, string_bytes};
ghost use Rattle.mdb_srv.specs.declared.error.SrvError.TheVariants.{DnsResolve, OutOfMemory};
ghost use Rattle.mdb_srv.specs.Refusals as refusals;
ghost use Rattle.mdb_srv.specs.Answers.{Says};

use super::SrvError;
use mdb_base::Text;
use std::alloc::{AllocError, Global};

// No host is left.
pub(crate) fn no_records(alloc: Global, original: &str) -> SrvError
    ensures { Says (refusals.no_records original.now) result }
{
    refusal(format!(in alloc; "SRV lookup for {original} returned no records"))
}

// A host that was found is not in the domain of the host that was asked for.
pub(crate) fn mismatch(alloc: Global, original: &str, found: &str, domain: &str) -> SrvError
    ensures { Says (refusals.mismatch original.now found.now domain.now) result }
{
    refusal(format!(in alloc;
        "SRV lookup for {original} returned result {found}, which does not match domain name {domain}"
    ))
}

// The refusal with this text.
fn refusal(text: Result<String, AllocError>) -> SrvError
    ensures { MatchResult text (λ said. result ≡ DnsResolve (string_bytes said)) (λ _. result ≡ OutOfMemory) }
{
    match text {
        Ok(text) => SrvError::DnsResolve(Text::new(text)),
        Err(_) => SrvError::OutOfMemory,
    }
}

// There is more than one TXT record.
pub(crate) fn too_many(alloc: Global, original: &str) -> SrvError
    ensures { Says (refusals.too_many original.now) result }
{
    refusal(format!(in alloc;
        "TXT lookup for {original} returned more than one record, but more than one are not allowed with 'mongodb+srv'"
    ))
}

// A part of a TXT record is no option.
pub(crate) fn not_a_pair(alloc: Global, part: &str) -> SrvError
    ensures { Says (refusals.not_a_pair part.now) result }
{
    refusal(format!(in alloc; "TXT record string '{part}' is not a value `key=value` option pair"))
}

// The value of `loadbalanced` is no flag.
pub(crate) fn not_a_flag(alloc: Global, value: &str) -> SrvError
    ensures { Says (refusals.not_a_flag value.now) result }
{
    refusal(format!(in alloc;
        "TXT record option 'loadbalanced={value}' was returned, only 'true' and 'false' are allowed values."
    ))
}

// A key that no option has.
pub(crate) fn unknown_key(alloc: Global, key: &str) -> SrvError
    ensures { Says (refusals.unknown_key key.now) result }
{
    refusal(format!(in alloc;
        "TXT record option '{key}' was returned, but only 'authSource', 'replicaSet', and 'loadBalanced' are allowed"
    ))
}

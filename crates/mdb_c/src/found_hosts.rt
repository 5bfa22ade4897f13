//! Which hosts of an SRV lookup are accepted.

ghost use Rattle.std.specs.Prelude.{◌≡◌, ◌≢◌, List, ℕ, Result, Ok, Err, MatchResult, IfOk, IfErr, string_bytes};
ghost use Rattle.mdb_base.specs.declared.address.ServerAddress.{ServerAddress as Address};
ghost use Rattle.mdb_srv.specs.Hosts.{valid_hosts};
ghost use Rattle.mdb_c.specs.Giving.{IsGiven, LacksRoom};
ghost use Rattle.mdb_c.specs.Hosts.{mismatch_of, hosts_text, LooksUp, lookup_text};

use crate::address_list::hosts_in;
use crate::given::give_as;
use crate::host_text::Hosts;
use mdb_base::{AddressError, Items, OutOfMemory, ServerAddress};
use mdb_session::{BAD_RECORDS, MALFORMED, NO_MEMORY, NO_ROOM, OK, Status};
use mdb_srv::{DomainMismatch, LookupHosts, SrvError};
use std::alloc::Global;

// What becomes of a host that is in another domain, by its number, counted from 0.
fn mismatch_of(strangers: u32) -> Option<DomainMismatch>
    ensures { result ≡ mismatch_of strangers }
{
    if strangers == 0 {
        Some(DomainMismatch::Error)
    } else if strangers == 1 {
        Some(DomainMismatch::Skip)
    } else {
        None
    }
}

// The text of the hosts that are accepted, or of the refusal.
fn accepted(
    alloc: Global,
    name: &str,
    mode: DomainMismatch,
    hosts: Vec<ServerAddress>,
) -> Result<Result<String, String>, OutOfMemory>
    ensures { IfOk result (λ told. MatchResult told
        (λ text. (kept : List Address) × (valid_hosts name.now mode hosts.items ≡ Ok kept) × (string_bytes text ≡ hosts_text kept))
        (λ why. valid_hosts name.now mode hosts.items ≡ Err (string_bytes why))) }
{
    let found = LookupHosts {
        hosts: Items::new(hosts),
        min_ttl: 0,
    };
    match found.validate(alloc, name, mode) {
        Ok(found) => {
            let kept = Hosts(found.hosts.as_slice());
            Ok(Ok(format!(in alloc; "{kept}")?))
        }
        Err(SrvError::DnsResolve(why)) => Ok(Err(why.into_inner())),
        Err(_) => Err(OutOfMemory),
    }
}

// What the lookup comes to, or why that cannot be said.
fn looked_up(
    alloc: Global,
    name: &[u8],
    found: &[u8],
    strangers: u32,
) -> Result<Result<String, String>, Status>
    ensures told { IfOk result (λ told. MatchResult told
        (λ text. (kept : List Address) × LooksUp name.now found.now strangers (Ok kept) × (string_bytes text ≡ hosts_text kept))
        (λ why. LooksUp name.now found.now strangers (Err (string_bytes why)))) }
    ensures answers { IfErr result (λ status. status ≢ MALFORMED → status ≡ NO_MEMORY) }
    ensures other { IfErr result (λ status. (status ≢ OK) × (status ≢ BAD_RECORDS) × (status ≢ NO_ROOM)) }
    ensures malformed { IfErr result (λ status. status ≡ MALFORMED → (answer : Result (List Address) (List ℕ)) → LooksUp name.now found.now strangers answer → ⊥) }
{
    let Some(mode) = mismatch_of(strangers) else {
        return Err(MALFORMED);
    };
    let Ok(name) = str::from_utf8(name) else {
        return Err(MALFORMED);
    };
    let Ok(found) = str::from_utf8(found) else {
        return Err(MALFORMED);
    };
    match hosts_in(alloc, found) {
        Ok(hosts) => match accepted(alloc, name, mode, hosts) {
            Ok(told) => Ok(told),
            Err(_) => Err(NO_MEMORY),
        },
        Err(AddressError::BadAddress) => Err(MALFORMED),
        Err(AddressError::OutOfMemory) => Err(NO_MEMORY),
    }
}

/// Writes the hosts of an SRV lookup of the name that are in its domain to the beginning of `out`, with commas between them, and how long this text is to
/// `needed` ("Initial DNS Seedlist Discovery", "Polling SRV Records for mongos Discovery"). `found` are the hosts with their ports, with commas between
/// them. Where `strangers` is 0 one host of another domain refuses the lookup, and where it is 1 such a host is left out. At `BAD_RECORDS` the lookup is
/// refused, and the text says why.
#[unsafe(no_mangle)]
pub extern "C" fn mdb_srv_hosts(
    alloc: Global,
    name: &[u8],
    found: &[u8],
    strangers: u32,
    out: &mut [u8],
    needed: &mut usize,
) -> Status
    ensures ok { result ≡ OK → (kept : List Address) × LooksUp name.now found.now strangers (Ok kept) × IsGiven (hosts_text kept) out.old out.new needed.new }
    ensures refused { result ≡ BAD_RECORDS → (why : List ℕ) × LooksUp name.now found.now strangers (Err why) × IsGiven why out.old out.new needed.new }
    ensures room { result ≡ NO_ROOM → (answer : Result (List Address) (List ℕ)) × LooksUp name.now found.now strangers answer × LacksRoom (lookup_text answer) out.old needed.new }
    ensures other { result ≢ OK → result ≢ BAD_RECORDS → out.new ≡ out.old }
    ensures malformed { result ≡ MALFORMED → (answer : Result (List Address) (List ℕ)) → LooksUp name.now found.now strangers answer → ⊥ }
    ensures answers { result ≢ OK → result ≢ BAD_RECORDS → result ≢ NO_ROOM → result ≢ MALFORMED → result ≡ NO_MEMORY }
    ensures needed { result ≢ OK → result ≢ BAD_RECORDS → result ≢ NO_ROOM → needed.new ≡ 0 }
{
    *needed = 0;
    match looked_up(alloc, name, found, strangers) {
        Ok(Ok(text)) => give_as(text.as_str(), OK, out, needed),
        Ok(Err(why)) => give_as(why.as_str(), BAD_RECORDS, out, needed),
        Err(status) => status,
    }
}

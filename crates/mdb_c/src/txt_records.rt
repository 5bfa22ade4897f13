//! What the TXT records of a name set.

ghost use Rattle.std.specs.Prelude.{◌≡◌, ◌≢◌, [], List, ℕ, Result, Ok, Err, MatchResult, IfOk, IfErr, string_bytes};
ghost use Rattle.mdb_srv.specs.Memory.{txt_held};
ghost use Rattle.mdb_srv.specs.Txt.{configured, plain_config};
ghost use Rattle.mdb_srv.specs.declared.config.ResolvedConfig.{ResolvedConfig as Config};
ghost use Rattle.mdb_c.specs.Giving.{IsGiven, LacksRoom};
ghost use Rattle.mdb_c.specs.Txt.{txt_record, txt_records, options_text, SetsOptions, answer_text};

use crate::given::give_as;
use crate::txt_text::SetOptions;
use mdb_base::{Items, OutOfMemory, Text};
use mdb_session::{BAD_RECORDS, MALFORMED, NO_MEMORY, NO_ROOM, OK, Status};
use mdb_srv::{MemRecords, MemResolver, ResolvedConfig, SrvError, SrvResolver, TxtRecord};
use std::alloc::{AllocError, Global};

// A record of one piece.
fn txt_record(alloc: Global, text: &[u8]) -> Result<TxtRecord, OutOfMemory>
    ensures { IfOk result (λ found. found ≡ txt_record text.now) }
{
    let piece = Items::new(Vec::from_slice(alloc, text)?);
    let mut pieces = Vec::new(alloc);
    pieces.push(piece)?;
    Ok(TxtRecord {
        txt_data: Items::new(pieces),
    })
}

// So many records with this text, of which two stand for all of more than two.
fn txt_records(alloc: Global, count: u32, text: &[u8]) -> Result<Vec<TxtRecord>, OutOfMemory>
    ensures { IfOk result (λ records. records.items ≡ txt_records count text.now) }
{
    let mut records = Vec::new(alloc);
    if count >= 1 {
        records.push(txt_record(alloc, text)?)?;
    }
    if count >= 2 {
        records.push(txt_record(alloc, text)?)?;
    }
    Ok(records)
}

// A resolver that has these TXT records of the name, and nothing else.
fn resolver_of(
    alloc: Global,
    name: &str,
    records: Vec<TxtRecord>,
) -> Result<MemResolver, OutOfMemory>
    ensures { IfOk result (λ resolver. txt_held resolver name.now ≡ records.items) }
{
    let entry = MemRecords {
        query: Text::new(String::from_str(alloc, name)?),
        srv: Items::new(Vec::new(alloc)),
        txt: Items::new(records),
    };
    let mut entries = Vec::new(alloc);
    entries.push(entry)?;
    Ok(MemResolver::new(entries, Vec::new(alloc)))
}

// A configuration that says nothing.
fn plain_config(alloc: Global) -> ResolvedConfig
    ensures { result ≡ plain_config [] 0 }
{
    ResolvedConfig {
        hosts: Items::new(Vec::new(alloc)),
        min_ttl: 0,
        auth_source: None,
        replica_set: None,
        load_balanced: None,
    }
}

// The text of what the records set, or of the refusal.
fn options_of(
    alloc: Global,
    name: &str,
    records: Vec<TxtRecord>,
) -> Result<Result<String, String>, OutOfMemory>
    ensures { IfOk result (λ told. MatchResult told
        (λ text. (config : Config) × (configured name.now records.items (plain_config [] 0) ≡ Ok config) × (string_bytes text ≡ options_text config))
        (λ why. configured name.now records.items (plain_config [] 0) ≡ Err (string_bytes why))) }
{
    let mut config = plain_config(alloc);
    let mut resolver = SrvResolver::new(resolver_of(alloc, name, records)?, None);
    match resolver.get_txt_options(alloc, name, &mut config) {
        Ok(()) => {
            let options = SetOptions(&config);
            Ok(Ok(format!(in alloc; "{options}")?))
        }
        Err(SrvError::DnsResolve(why)) => Ok(Err(why.into_inner())),
        Err(_) => Err(OutOfMemory),
    }
}

// What the records set, or why that cannot be said.
fn set_by(
    alloc: Global,
    name: &[u8],
    count: u32,
    text: &[u8],
) -> Result<Result<String, String>, Status>
    ensures told { IfOk result (λ told. MatchResult told
        (λ said. (config : Config) × SetsOptions name.now count text.now (Ok config) × (string_bytes said ≡ options_text config))
        (λ why. SetsOptions name.now count text.now (Err (string_bytes why)))) }
    ensures answers { IfErr result (λ status. status ≢ MALFORMED → status ≡ NO_MEMORY) }
    ensures other { IfErr result (λ status. (status ≢ OK) × (status ≢ BAD_RECORDS) × (status ≢ NO_ROOM)) }
    ensures malformed { IfErr result (λ status. status ≡ MALFORMED → (answer : Result Config (List ℕ)) → SetsOptions name.now count text.now answer → ⊥) }
{
    let Ok(name) = str::from_utf8(name) else {
        return Err(MALFORMED);
    };
    let Ok(records) = txt_records(alloc, count, text) else {
        return Err(NO_MEMORY);
    };
    match options_of(alloc, name, records) {
        Ok(told) => Ok(told),
        Err(_) => Err(NO_MEMORY),
    }
}

/// Writes what the TXT records of the name set to the beginning of `out`, and how long this text is to `needed` ("Initial DNS Seedlist Discovery"): as a
/// connection string has its options, each behind `&`: `&authSource=NAME`, `&replicaSet=NAME`, `&loadBalanced=true` or `&loadBalanced=false`, in this
/// order. `count` is how many records there are, and `text` the strings of the first, joined; with no record nothing is set. At `BAD_RECORDS` they break
/// a rule, and the text says which.
#[unsafe(no_mangle)]
pub extern "C" fn mdb_srv_txt(
    alloc: Global,
    name: &[u8],
    count: u32,
    text: &[u8],
    out: &mut [u8],
    needed: &mut usize,
) -> Status
    ensures ok { result ≡ OK → (config : Config) × SetsOptions name.now count text.now (Ok config) × IsGiven (options_text config) out.old out.new needed.new }
    ensures refused { result ≡ BAD_RECORDS → (why : List ℕ) × SetsOptions name.now count text.now (Err why) × IsGiven why out.old out.new needed.new }
    ensures room { result ≡ NO_ROOM → (answer : Result Config (List ℕ)) × SetsOptions name.now count text.now answer × LacksRoom (answer_text answer) out.old needed.new }
    ensures other { result ≢ OK → result ≢ BAD_RECORDS → out.new ≡ out.old }
    ensures malformed { result ≡ MALFORMED → (answer : Result Config (List ℕ)) → SetsOptions name.now count text.now answer → ⊥ }
    ensures answers { result ≢ OK → result ≢ BAD_RECORDS → result ≢ NO_ROOM → result ≢ MALFORMED → result ≡ NO_MEMORY }
    ensures needed { result ≢ OK → result ≢ BAD_RECORDS → result ≢ NO_ROOM → needed.new ≡ 0 }
{
    *needed = 0;
    match set_by(alloc, name, count, text) {
        Ok(Ok(text)) => give_as(text.as_str(), OK, out, needed),
        Ok(Err(why)) => give_as(why.as_str(), BAD_RECORDS, out, needed),
        Err(status) => status,
    }
}

//! What the TXT records of a host say.
ghost use Rattle.std.specs.Prelude.{◌≡◌, ◌==◌, IfOk, IfErr, Ok, map, string_bytes, option_map, unwrap_or, []};
ghost use Rattle.std.specs.List.{slice_split, fold};
ghost use Rattle.mdb_srv.specs.Answers.{Refuses};
ghost use Rattle.mdb_srv.specs.Txt.{all_options, txt_options, text_of, with_option, plain_config};

use super::refusals::too_many;
use super::txt_option::TxtOption;
use super::{LookupHosts, ResolvedConfig, SrvError, TxtRecord};
use bstr::ByteSlice;
use std::alloc::{AllocError, Global};

// The options that the TXT records of a host set.
pub(crate) fn txt_options(
    alloc: Global,
    original: &str,
    records: Option<Vec<TxtRecord>>,
) -> Result<Vec<TxtOption>, SrvError>
    ensures found { IfOk result (λ options. txt_options original.now (unwrap_or (option_map (λ list. list.items) records) []) ≡ Ok options.items) }
    ensures refused { IfErr result (Refuses (txt_options original.now (unwrap_or (option_map (λ list. list.items) records) []))) }
{
    match records {
        Some(records) => options_of(alloc, original, &records),
        None => Ok(Vec::new(alloc)),
    }
}

// The options that these records set.
fn options_of(
    alloc: Global,
    original: &str,
    records: &[TxtRecord],
) -> Result<Vec<TxtOption>, SrvError>
    ensures found { IfOk result (λ options. txt_options original.now records.now ≡ Ok options.items) }
    ensures refused { IfErr result (Refuses (txt_options original.now records.now)) }
{
    match records {
        [] => Ok(Vec::new(alloc)),
        [found] => {
            let text = text_of(alloc, found)?;
            let parts = parts(alloc, text.as_str())?;
            all_options(alloc, &parts)
        }
        _ => Err(too_many(alloc, original)),
    }
}

// The pieces of a record, each made text, and joined.
fn text_of(alloc: Global, found: &TxtRecord) -> Result<String, AllocError>
    ensures { IfOk result (λ text. string_bytes text ≡ text_of found.now) }
{
    let mut text = String::new(alloc);
    for piece in found.txt_data.as_slice() {
        piece.as_slice().to_str_lossy_into(&mut text)?;
    }
    Ok(text)
}

// The parts of a text, which stand between its ampersands.
fn parts(alloc: Global, text: &str) -> Result<Vec<&str>, AllocError>
    ensures { IfOk result (λ parts. map (λ part. part.now) parts.items ≡ slice_split (λ b. b == 38) text.now) }
{
    text.split('&').collect(alloc)
}

// The options of all parts.
fn all_options(alloc: Global, parts: &[&str]) -> Result<Vec<TxtOption>, SrvError>
    ensures found { IfOk result (λ options. all_options (map (λ part. part.now) parts.now) ≡ Ok options.items) }
    ensures refused { IfErr result (Refuses (all_options (map (λ part. part.now) parts.now))) }
{
    let mut options = Vec::new(alloc);
    for part in parts {
        options.push(TxtOption::read(alloc, part)?)?;
    }
    Ok(options)
}

impl ResolvedConfig {
    // The configuration with these hosts and no option set.
    pub(crate) fn plain(found: LookupHosts) -> ResolvedConfig
        ensures { result ≡ plain_config found.hosts found.min_ttl }
    {
        ResolvedConfig {
            hosts: found.hosts,
            min_ttl: found.min_ttl,
            auth_source: None,
            replica_set: None,
            load_balanced: None,
        }
    }

    // Sets these options one after another.
    pub(crate) fn set_all(&mut self, options: Vec<TxtOption>)
        ensures { self.new ≡ fold with_option self.old options.items }
    {
        for option in options {
            self.set(option);
        }
    }

    fn set(&mut self, option: TxtOption)
        ensures { self.new ≡ with_option self.old option }
    {
        match option {
            TxtOption::AuthSource(name) => self.auth_source = Some(name),
            TxtOption::ReplicaSet(name) => self.replica_set = Some(name),
            TxtOption::LoadBalanced(flag) => self.load_balanced = Some(flag),
        }
    }
}

//! A resolver in memory.
ghost use Rattle.std.specs.Prelude.{◌≡◌, MatchOption, IfOk, [], option_map};
ghost use Rattle.mdb_srv.specs.declared.resolver.LookupError.TheVariants.{Failed};
ghost use Rattle.mdb_srv.specs.Records.{txt_answer};

use super::{LookupError, Resolver, SrvRecord, TxtRecord};
use mdb_base::{Items, Text};
use std::alloc::{AllocError, Global};

/// The records that stand under a name.
#[derive(Debug, Drop)]
pub struct MemRecords {
    /// The name, as a lookup asks for it.
    pub query: Text,
    /// The SRV records under it, in the order in which a lookup gives them.
    pub srv: Items<SrvRecord>,
    /// The TXT records under it.
    pub txt: Items<TxtRecord>,
}

/// A resolver that holds its records: for each name those of the first entry with that name, and none for any other.
/// Both lookups are numbered together from 1, and those whose numbers stand in `fails` fail. A lookup that needs memory
/// has no number.
#[derive(Debug, Drop)]
pub struct MemResolver {
    answers: Vec<MemRecords>,
    fails: Vec<u64>,
    calls: u64,
    faults: u64,
}

impl MemResolver {
    ghost use Rattle.mdb_srv.specs.Memory.{srv_in, txt_in, srv_held, txt_held, resolver_faults, listed_lookups, lookup_count, next_lookup, fails_next, counted, failed};

    /// A resolver of these records, which was not asked yet. No memory is taken.
    pub fn new(answers: Vec<MemRecords>, fails: Vec<u64>) -> MemResolver
        ensures srv { srv_held result ≡ srv_in answers.items }
        ensures txt { txt_held result ≡ txt_in answers.items }
        ensures faults { resolver_faults result ≡ 0 }
        ensures fails { listed_lookups result ≡ fails.items }
        ensures calls { lookup_count result ≡ 0 }
    {
        MemResolver {
            answers,
            fails,
            calls: 0,
            faults: 0,
        }
    }

    // The number of the next call.
    fn next_call(&self) -> u64
        ensures { result ≡ next_lookup self.now }
    {
        self.calls.saturating_add(1)
    }

    fn fails_next(&self) -> bool
        ensures { result ≡ fails_next self.now }
    {
        self.fails.contains(&self.next_call())
    }

    // Counts a call.
    fn count(&mut self)
        ensures { self.new ≡ counted self.old }
    {
        self.calls = self.next_call();
    }

    // Counts a call that fails.
    fn fail(&mut self) -> LookupError
        ensures failed { self.new ≡ failed self.old }
        ensures error { result ≡ Failed }
    {
        self.calls = self.next_call();
        self.faults = self.faults.saturating_add(1);
        LookupError::Failed
    }

    fn srv(&self, alloc: Global, query: &str) -> Result<Vec<SrvRecord>, AllocError>
        ensures { IfOk result (λ found. found.items ≡ srv_held self.now query.now) }
    {
        match self.entry(query) {
            Some(held) => Ok(held.srv.clone()?.into_inner()),
            None => Ok(Vec::new(alloc)),
        }
    }

    fn txt(&self, query: &str) -> Result<Option<Vec<TxtRecord>>, AllocError>
        ensures { IfOk result (λ found. option_map (λ list. list.items) found ≡ txt_answer (txt_held self.now query.now)) }
    {
        match self.entry(query) {
            Some(held) if !held.txt.as_slice().is_empty() => Ok(Some(
                held.txt.clone()?.into_inner(),
            )),
            _ => Ok(None),
        }
    }

    // The first entry with this name.
    fn entry(&self, query: &str) -> Option<&MemRecords>
        ensures srv { MatchOption result
            (srv_held self.now query.now ≡ [])
            (λ held. srv_held self.now query.now ≡ held.now.srv) }
        ensures txt { MatchOption result
            (txt_held self.now query.now ≡ [])
            (λ held. txt_held self.now query.now ≡ held.now.txt) }
    {
        for held in &self.answers {
            if held.query.as_str() == query {
                return Some(held);
            }
        }
        None
    }
}

impl Resolver for MemResolver {
    ghost use Rattle.std.specs.Prelude.{Some};
    ghost use Rattle.mdb_srv.specs.Memory.{srv_held, txt_held, resolver_faults, Moves};
    ghost use Rattle.mdb_srv.specs.Records.{txt_answer};

    ghost srv_records = { λ r query. Some (srv_held r query) };

    ghost txt_records = { λ r query. Some (txt_held r query) };

    ghost faults = { resolver_faults };

    ghost srv_looked = { λ r query answer s. Moves (srv_held r query) r answer s };

    ghost txt_looked = { λ r query answer s. Moves (txt_answer (txt_held r query)) r answer s };

    fn srv_lookup(&mut self, alloc: Global, query: &str) -> Result<Vec<SrvRecord>, LookupError> {
        if self.fails_next() {
            return Err(self.fail());
        }
        let found = self.srv(alloc, query)?;
        self.count();
        Ok(found)
    }

    fn txt_lookup(
        &mut self,
        _alloc: Global,
        query: &str,
    ) -> Result<Option<Vec<TxtRecord>>, LookupError> {
        if self.fails_next() {
            return Err(self.fail());
        }
        let found = self.txt(query)?;
        self.count();
        Ok(found)
    }
}

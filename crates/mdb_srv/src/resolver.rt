//! The outside that looks records up.
ghost use Rattle.std.specs.Prelude.{◌≡◌, ℕ, List, IfOk, option_map};
ghost use Rattle.mdb_srv.specs.declared.resolver.SrvRecord.{SrvRecord};
ghost use Rattle.mdb_srv.specs.declared.resolver.TxtRecord.{TxtRecord};

use mdb_base::{Items, OutOfMemory, Text};
use std::alloc::{AllocError, Global};
use thiserror::Error;

/// An SRV record: a host with a port.
#[derive(Debug, Drop)]
pub struct SrvRecord {
    /// The host, maybe with a dot at its end.
    pub target: Text,
    /// The port of the host.
    pub port: u16,
    /// For how many seconds the record may be kept.
    pub ttl: u32,
}

impl Clone for SrvRecord {
    ghost is_clone = { λ s t. t ≡ s };

    fn clone(&self) -> Result<SrvRecord, AllocError> {
        let target = self.target.clone()?;
        Ok(SrvRecord {
            target,
            port: self.port,
            ttl: self.ttl,
        })
    }
}

/// A TXT record: pieces of bytes that are one text when joined.
#[derive(Debug, Drop)]
pub struct TxtRecord {
    /// The pieces, in order. They need not be text.
    pub txt_data: Items<Items<u8>>,
}

impl Clone for TxtRecord {
    ghost is_clone = { λ s t. t ≡ s };

    fn clone(&self) -> Result<TxtRecord, AllocError> {
        let txt_data = self.txt_data.clone()?;
        Ok(TxtRecord { txt_data })
    }
}

/// Why a lookup gave no answer.
#[derive(Clone, Copy, Debug, PartialEq, Eq, Error)]
pub enum LookupError {
    /// The resolver failed.
    #[error("the lookup failed")]
    Failed,
    /// There was no memory.
    #[error("out of memory")]
    OutOfMemory,
}

impl From<OutOfMemory> for LookupError {
    ghost use Rattle.mdb_srv.specs.declared.resolver.LookupError.TheVariants.{OutOfMemory as no_memory};

    ghost from_gives = { λ _ e. e ≡ no_memory };

    fn from(_e: OutOfMemory) -> LookupError {
        LookupError::OutOfMemory
    }
}

impl From<AllocError> for LookupError {
    ghost use Rattle.mdb_srv.specs.declared.resolver.LookupError.TheVariants.{OutOfMemory as no_memory};

    ghost from_gives = { λ _ e. e ≡ no_memory };

    fn from(_e: AllocError) -> LookupError {
        LookupError::OutOfMemory
    }
}

/// What looks records up. The records that it tells of no call changes, and an answer gives them.
pub trait Resolver {
    ghost use Rattle.std.specs.Prelude.{Option, Result};
    ghost use Rattle.mdb_srv.specs.declared.resolver.LookupError.{LookupError};
    ghost use Rattle.mdb_srv.specs.Answers.{LookupCause};
    ghost use Rattle.mdb_srv.specs.Records.{txt_answer, seen, Tells};

    /// The SRV records for a query, where the object tells.
    ghost srv_records: { Self → List ℕ → Option (List SrvRecord) };

    /// The TXT records for a query, where the object tells.
    ghost txt_records: { Self → List ℕ → Option (List TxtRecord) };

    /// How often it failed. The count never falls.
    ghost faults: { Self → ℕ };

    /// What one lookup of SRV records is for this kind of resolver: before, the query, the answer, after.
    ghost srv_looked: { Self → List ℕ → Result (List SrvRecord) LookupError → Self → Type 0 };

    /// What one lookup of TXT records is for this kind of resolver.
    ghost txt_looked: { Self → List ℕ → Result (Option (List TxtRecord)) LookupError → Self → Type 0 };

    /// The SRV records for `query`.
    fn srv_lookup(&mut self, alloc: Global, query: &str) -> Result<Vec<SrvRecord>, LookupError>
        ensures found { IfOk result (λ found. Tells (srv_records self.old query.now) found.items) }
        ensures cause { LookupCause (faults self.old) (faults self.new) result }
        ensures looked { srv_looked self.old query.now (seen (λ found. found.items) result) self.new }
        ensures srv { srv_records self.new ≡ srv_records self.old }
        ensures txt { txt_records self.new ≡ txt_records self.old };

    /// The TXT records for `query`, and `None` where there is none.
    fn txt_lookup(
        &mut self,
        alloc: Global,
        query: &str,
    ) -> Result<Option<Vec<TxtRecord>>, LookupError>
        ensures found { IfOk result (λ found. Tells (option_map txt_answer (txt_records self.old query.now))
            (option_map (λ list. list.items) found)) }
        ensures cause { LookupCause (faults self.old) (faults self.new) result }
        ensures looked { txt_looked self.old query.now (seen (option_map (λ list. list.items)) result) self.new }
        ensures srv { srv_records self.new ≡ srv_records self.old }
        ensures txt { txt_records self.new ≡ txt_records self.old };
}

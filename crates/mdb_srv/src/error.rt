//! Why a seed list could not be had.
ghost use Rattle.std.specs.Prelude.{◌≡◌};

use super::LookupError;
use mdb_base::{OutOfMemory, Text};
use std::alloc::{AllocError, AllocFailed};
use std::fmt;
use thiserror::Error;

/// Why a seed list could not be had.
#[derive(Debug, Drop, Error)]
pub enum SrvError {
    /// The records are there and break a rule, which the text names.
    #[error("DNS resolution failed: {}", Shown(.0))]
    DnsResolve(Text),
    /// The resolver did not answer.
    #[error("the resolver failed")]
    ResolverFault,
    /// There was no memory.
    #[error("out of memory")]
    OutOfMemory,
}

// A text as it is.
#[derive(Drop)]
struct Shown<'a>(&'a Text);

impl<'a> fmt::Display for Shown<'a> {
    ghost use Rattle.std.specs.Prelude.{Some};

    ghost output = { λ t. Some t.0.now };

    fn fmt<W: fmt::Write>(&self, f: &mut fmt::Formatter<W>) -> fmt::Result {
        f.write_str(self.0.as_str())
    }
}

impl From<OutOfMemory> for SrvError {
    ghost use Rattle.mdb_srv.specs.declared.error.SrvError.TheVariants.{OutOfMemory as no_memory};

    ghost from_gives = { λ _ e. e ≡ no_memory };

    fn from(_e: OutOfMemory) -> SrvError {
        SrvError::OutOfMemory
    }
}

impl From<AllocError> for SrvError {
    ghost use Rattle.mdb_srv.specs.declared.error.SrvError.TheVariants.{OutOfMemory as no_memory};

    ghost from_gives = { λ _ e. e ≡ no_memory };

    fn from(_e: AllocError) -> SrvError {
        SrvError::OutOfMemory
    }
}

impl<T: Drop> From<AllocFailed<T>> for SrvError {
    ghost use Rattle.mdb_srv.specs.declared.error.SrvError.TheVariants.{OutOfMemory as no_memory};

    ghost from_gives = { λ _ e. e ≡ no_memory };

    fn from(_e: AllocFailed<T>) -> SrvError {
        SrvError::OutOfMemory
    }
}

impl From<LookupError> for SrvError {
    ghost use Rattle.mdb_srv.specs.Answers.{fault_of};

    ghost from_gives = { λ failed e. e ≡ fault_of failed };

    fn from(e: LookupError) -> SrvError {
        match e {
            LookupError::Failed => SrvError::ResolverFault,
            LookupError::OutOfMemory => SrvError::OutOfMemory,
        }
    }
}

//! What can go wrong with a hello.

use mdb_base::{Error, OutOfMemory};
use std::alloc::{AllocError, AllocFailed};
use thiserror::Error as ThisError;

/// Why a document is no reply to a hello.
#[derive(Clone, Copy, Debug, PartialEq, Eq, ThisError)]
pub enum HelloError {
    /// The first field, in the order of the reply's fields, that has another type, or that is required and absent.
    #[error("the field {0} has another type or is absent")]
    BadField(&'static str),
    /// There was no memory.
    #[error("out of memory")]
    OutOfMemory,
}

/// The first field, in the order of the reply's fields, that has another type, or that is required and absent.
#[derive(Clone, Copy, Debug, PartialEq, Eq)]
pub struct BadField(pub &'static str);

/// Why a link gave no document.
#[derive(Debug, Drop, ThisError)]
pub enum LinkError {
    /// The link failed with this error.
    #[error("the link failed")]
    Failed(Error),
    /// There was no memory.
    #[error("out of memory")]
    OutOfMemory,
}

/// Why a hello gave no reply.
#[derive(Debug, Drop, ThisError)]
pub enum RunHelloError {
    /// The link failed with this error.
    #[error("the link failed")]
    Link(Error),
    /// The first field, in the order of the reply's fields, that has another type, or that is required and absent.
    #[error("the field {0} has another type or is absent")]
    BadField(&'static str),
    /// There was no memory.
    #[error("out of memory")]
    OutOfMemory,
}

impl From<OutOfMemory> for HelloError {
    ghost use Rattle.std.specs.Prelude.{◌≡◌};
    ghost use Rattle.mdb_hello.specs.declared.error.HelloError.TheVariants as hello;

    ghost from_gives = { λ _ e. e ≡ hello.OutOfMemory };

    fn from(_e: OutOfMemory) -> HelloError {
        HelloError::OutOfMemory
    }
}

impl From<AllocError> for HelloError {
    ghost use Rattle.std.specs.Prelude.{◌≡◌};
    ghost use Rattle.mdb_hello.specs.declared.error.HelloError.TheVariants as hello;

    ghost from_gives = { λ _ e. e ≡ hello.OutOfMemory };

    fn from(_e: AllocError) -> HelloError {
        HelloError::OutOfMemory
    }
}

impl<T: Drop> From<AllocFailed<T>> for HelloError {
    ghost use Rattle.std.specs.Prelude.{◌≡◌};
    ghost use Rattle.mdb_hello.specs.declared.error.HelloError.TheVariants as hello;

    ghost from_gives = { λ _ e. e ≡ hello.OutOfMemory };

    fn from(_e: AllocFailed<T>) -> HelloError {
        HelloError::OutOfMemory
    }
}

impl From<AllocError> for LinkError {
    ghost use Rattle.std.specs.Prelude.{◌≡◌};
    ghost use Rattle.mdb_hello.specs.declared.error.LinkError.TheVariants as link;

    ghost from_gives = { λ _ e. e ≡ link.OutOfMemory };

    fn from(_e: AllocError) -> LinkError {
        LinkError::OutOfMemory
    }
}

impl From<AllocError> for RunHelloError {
    ghost use Rattle.std.specs.Prelude.{◌≡◌};
    ghost use Rattle.mdb_hello.specs.declared.error.RunHelloError.TheVariants as run;

    ghost from_gives = { λ _ e. e ≡ run.OutOfMemory };

    fn from(_e: AllocError) -> RunHelloError {
        RunHelloError::OutOfMemory
    }
}

impl From<LinkError> for RunHelloError {
    ghost use Rattle.std.specs.Prelude.{◌≡◌};
    ghost use Rattle.mdb_hello.specs.Errors.{run_from_link};

    ghost from_gives = { λ e r. r ≡ run_from_link e };

    fn from(e: LinkError) -> RunHelloError {
        match e {
            LinkError::Failed(error) => RunHelloError::Link(error),
            LinkError::OutOfMemory => RunHelloError::OutOfMemory,
        }
    }
}

impl From<HelloError> for RunHelloError {
    ghost use Rattle.std.specs.Prelude.{◌≡◌};
    ghost use Rattle.mdb_hello.specs.Errors.{run_from_hello};

    ghost from_gives = { λ e r. r ≡ run_from_hello e };

    fn from(e: HelloError) -> RunHelloError {
        match e {
            HelloError::BadField(name) => RunHelloError::BadField(name),
            HelloError::OutOfMemory => RunHelloError::OutOfMemory,
        }
    }
}

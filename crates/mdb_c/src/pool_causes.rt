//! Why a pool that stands alone is cleared.

ghost use Rattle.std.specs.Prelude.{◌≡◌, IfOk};
ghost use Rattle.mdb_c.specs.PoolSteps.{cause_of, error_of};

use mdb_base::{Error, ErrorKind, Items, OutOfMemory, Text};
use mdb_events::Boxed;
use std::alloc::Global;

/// The kind of error of a number, from 0.
pub fn cause_of(number: u32) -> Option<ErrorKind>
    ensures { result ≡ cause_of number }
{
    if number == 0 {
        Some(ErrorKind::Network)
    } else if number == 1 {
        Some(ErrorKind::NetworkTimeout)
    } else if number == 2 {
        Some(ErrorKind::Other)
    } else {
        None
    }
}

/// An error of the kind that says nothing else.
pub fn error_of(alloc: Global, kind: ErrorKind) -> Result<Boxed<Error>, OutOfMemory>
    ensures { IfOk result (λ error. error ≡ error_of kind) }
{
    let error = Error {
        kind,
        labels: Items::new(Vec::new(alloc)),
        topology_version: None,
        message: Text::new(String::new(alloc)),
    };
    let error = Boxed::new(alloc, error)?;
    Ok(error)
}

//! An error about the server of a pool, and what its monitor is asked then.

ghost use Rattle.std.specs.Prelude.{◌≡◌, ◌++◌, OnOk};
ghost use Rattle.mdb_driver_pools.specs.Clearing.{asked_of};

use mdb_base::{Error, ObjectId, ServerAddress};
use mdb_events::Fact;
use std::alloc::AllocError;

/// What the monitor of a server is asked after an error.
#[derive(Clone, Copy)]
pub enum Asked {
    Nothing,
    /// To check now.
    CheckNow,
    /// To cancel its check, where the pool was cleared.
    CancelIfCleared,
}

/// An error about the server of a pool, and what it asks for.
#[derive(Clone, Copy)]
pub struct PoolTrouble<'a> {
    /// Where the pool stands.
    pub index: usize,
    /// The service that is cleared, or none where the whole pool is.
    pub service: Option<ObjectId>,
    pub error: &'a Error,
    /// The pool is cleared, or the service.
    pub clears: bool,
    pub asked: Asked,
}

/// The monitor of the address is asked.
pub fn ask(
    facts: &mut Vec<Fact>,
    asked: Asked,
    cleared: bool,
    address: &ServerAddress,
) -> Result<(), AllocError>
    ensures { OnOk result (facts.new.items ≡ facts.old.items ++ asked_of asked cleared address.now) }
{
    match asked {
        Asked::CheckNow => facts.push(Fact::CheckNow(address.clone()?))?,
        Asked::CancelIfCleared if cleared => facts.push(Fact::Cancel(address.clone()?))?,
        _ => {}
    }
    Ok(())
}

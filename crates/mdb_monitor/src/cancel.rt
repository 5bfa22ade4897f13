//! Why a check that runs is cancelled.

use mdb_base::Error;

/// Why a check that runs is cancelled.
#[derive(Debug, Drop, PartialEq, Eq)]
pub enum CancellationReason {
    /// An error of an application's connection to the server cleared its pool.
    Error(Error),
    /// The server is monitored no longer.
    ServerClosed,
}

impl From<Error> for CancellationReason {
    ghost use Rattle.std.specs.Prelude.{◌≡◌};
    ghost use Rattle.mdb_monitor.specs.declared.cancel.CancellationReason.TheVariants.{Error};

    ghost from_gives = { λ e x. x ≡ Error e };

    fn from(error: Error) -> CancellationReason {
        CancellationReason::Error(error)
    }
}

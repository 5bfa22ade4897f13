//! How a request ends without a connection in hand.

ghost use Rattle.std.specs.Prelude.{◌≡◌};

use crate::boxed::Boxed;
use mdb_base::Error;
use std::alloc::AllocError;
use std::fmt;

/// How a request ended.
#[derive(Debug, Drop, PartialEq, Eq)]
pub enum End {
    /// Its pool was new or paused when it asked, or was cleared while it waited. Carries the cause.
    Cleared(Boxed<Error>),
    /// Its connection could not be established. Carries the cause.
    Failed(Boxed<Error>),
    /// Its pool was closed.
    Closed,
    /// A warm request found enough connections.
    Warmed,
    /// A warm request's connection was established.
    Filled,
    /// The one who asked gave up.
    GaveUp,
    /// A caller waited for as long as a caller may.
    TimedOut,
}

impl Clone for End {
    ghost is_clone = { λ s t. t ≡ s };

    fn clone(&self) -> Result<End, AllocError> {
        Ok(match self {
            End::Cleared(error) => End::Cleared(error.clone()?),
            End::Failed(error) => End::Failed(error.clone()?),
            End::Closed => End::Closed,
            End::Warmed => End::Warmed,
            End::Filled => End::Filled,
            End::GaveUp => End::GaveUp,
            End::TimedOut => End::TimedOut,
        })
    }
}

impl fmt::Display for End {
    ghost use Rattle.std.specs.Prelude.{Some};
    ghost use Rattle.mdb_events.specs.FactText.{end_text};

    ghost output = { λ e. Some (end_text e) };

    fn fmt<W: fmt::Write>(&self, f: &mut fmt::Formatter<W>) -> fmt::Result {
        match self {
            End::Cleared(error) => {
                let error = error.get();
                write!(f, "Cleared {error}")
            }
            End::Failed(error) => {
                let error = error.get();
                write!(f, "Failed {error}")
            }
            End::Closed => write!(f, "Closed"),
            End::Warmed => write!(f, "Warmed"),
            End::Filled => write!(f, "Filled"),
            End::GaveUp => write!(f, "GaveUp"),
            End::TimedOut => write!(f, "TimedOut"),
        }
    }
}

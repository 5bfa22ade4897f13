//! Values that are printed as a dash where there is none.

ghost use Rattle.std.specs.Prelude.{◌≡◌};

use mdb_base::ObjectId;
use std::fmt;

/// A number, or a dash where there is none.
#[derive(Drop)]
pub struct NumberOrDash(pub Option<u64>);

impl NumberOrDash {
    pub fn wide(number: Option<u32>) -> NumberOrDash
        ensures { result.0 ≡ number }
    {
        match number {
            Some(number) => NumberOrDash(Some(u64::from(number))),
            None => NumberOrDash(None),
        }
    }
}

impl fmt::Display for NumberOrDash {
    ghost use Rattle.std.specs.Prelude.{Some};
    ghost use Rattle.mdb_events.specs.Words.{number_or_dash};

    ghost output = { λ n. Some (number_or_dash n.0) };

    fn fmt<W: fmt::Write>(&self, f: &mut fmt::Formatter<W>) -> fmt::Result {
        match self.0 {
            Some(number) => write!(f, "{number}"),
            None => write!(f, "-"),
        }
    }
}

/// The id of a service, or a dash where there is none.
#[derive(Drop)]
pub struct ServiceOrDash(pub Option<ObjectId>);

impl fmt::Display for ServiceOrDash {
    ghost use Rattle.std.specs.Prelude.{Some};
    ghost use Rattle.mdb_events.specs.Words.{service_or_dash};

    ghost output = { λ s. Some (service_or_dash s.0) };

    fn fmt<W: fmt::Write>(&self, f: &mut fmt::Formatter<W>) -> fmt::Result {
        match self.0 {
            Some(id) => write!(f, "{id}"),
            None => write!(f, "-"),
        }
    }
}

/// A signed number, or a dash where there is none.
#[derive(Drop)]
pub struct SignedOrDash(pub Option<i64>);

impl fmt::Display for SignedOrDash {
    ghost use Rattle.std.specs.Prelude.{Some};
    ghost use Rattle.mdb_events.specs.Words.{signed_or_dash};

    ghost output = { λ n. Some (signed_or_dash n.0) };

    fn fmt<W: fmt::Write>(&self, f: &mut fmt::Formatter<W>) -> fmt::Result {
        match self.0 {
            Some(number) => write!(f, "{number}"),
            None => write!(f, "-"),
        }
    }
}

//! Seats at a shared driver.

use mdb_log::Core;
use mdb_turns::TableSeat;
use std::marker::Model;

/// A thread's place at one driver. It has a number, which its entries carry. Contracts see what it has seen of the log, its own entries, and
/// the turn words that its failed tries found. One that is dropped is missing where the driver is closed.
#[must_use]
#[derive(Drop)]
pub struct Seat<C: Core> {
    pub(crate) table_seat: TableSeat<C>,
    pub(crate) number: u32,
}

impl<C: Core> Seat<C> {
    ghost use Rattle.std.specs.Prelude.{◌≡◌};

    /// Its number, which its entries carry.
    pub fn number(&self) -> u32
        ensures { result ≡ self.now.number }
    {
        self.number
    }
}

impl<C: Core> Model for Seat<C> {
    ghost use Rattle.std.specs.Coded.{codes};
    ghost use Rattle.mdb_base.specs.DocumentCode.{fields_coded};
    ghost use Rattle.mdb_turns.specs.Stepping.{SeatView, seat_view, IsReady};

    ghost Value = { SeatView };

    ghost coded = { Prim.hlevel (codes, fields_coded) };

    ghost view = { λ s. seat_view s.table_seat.table_id s.number s.table_seat.me.0 };

    ghost invariant = { λ s. IsReady s.number s.table_seat.me };
}

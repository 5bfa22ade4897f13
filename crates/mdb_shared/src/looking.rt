//! Looks at the core and its log, which add no entry.

ghost use Rattle.std.specs.Prelude.{◌≡◌, ◌≢◌, ◌+◌, ◌∷◌, ◌++◌, [], IfOk, IfErr};
ghost use Rattle.mdb_turns.specs.Stepping.{IsReady, seat_view, OnlySaw};
ghost use Rattle.mdb_shared.specs.Seats.{FoundBusy, HasCore};
ghost use Rattle.mdb_turns.specs.Turning.{found_busy};

use crate::driver::SharedDriver;
use crate::seat::Seat;
use mdb_journal::Journal;
use mdb_log::Core;
use mdb_turns::{Lock, TableSeat, give_back, take};
use std::sync::Wait;

/// What one looks for in a driver. It runs in the turn, so that all others wait for it: it is to be short, to call no driver, and to take no lock under which another
/// thread calls one.
pub trait Look<C: Core> {
    ghost use Rattle.std.specs.Prelude.{List};
    ghost use Rattle.mdb_log.specs.declared.log.Entry.{Entry};

    /// What a look finds out.
    type Found: Drop;

    /// What it says of the log.
    ghost tells: { Self → List Entry → Self.Found → Type 0 };

    /// Looks at the core and the log that it stands for, of which the oldest entries may have been handed out.
    fn look(&self, core: &C, log: &Journal) -> Self::Found
        requires { C.stands core.now log.now.all }
        ensures { tells self.now log.now.all result };
}

// A look by the seat of this number, unless the turn is taken.
fn one_look<C: Core, L: Look<C>>(
    table: &Lock<C>,
    table_seat: &mut TableSeat<C>,
    number: u32,
    look: &L,
) -> Result<L::Found, u64>
    requires table { (table.now.shared.table_id.words ≡ 2) × (table.now.shared.table_id.slots ≡ 1) × (table_seat.old.table_id ≡ table.now.shared.table_id) }
    requires ready { IsReady number table_seat.old.me }
    ensures same { (table_seat.new.table_id ≡ table_seat.old.table_id) × (table_seat.new.id ≡ table_seat.old.id) × IsReady number table_seat.new.me }
    ensures ok { IfOk result (λ found. OnlySaw (seat_view table_seat.old.table_id number table_seat.old.me.0) (seat_view table_seat.new.table_id number table_seat.new.me.0) × (table_seat.new.me.0.busy ≡ table_seat.old.me.0.busy) × L.tells look.now table_seat.new.me.0.seen found) }
    ensures fits { IfOk result (λ found. HasCore C.stands (seat_view table_seat.new.table_id number table_seat.new.me.0)) }
    ensures err { IfErr result (λ word. (table_seat.new.me ≡ (found_busy table_seat.old.me.0 word, [])) × (word ≢ 0) × (word ≢ number + 1)) }
{
    // The turn is held from here to `give_back`.
    let (core, records) = match take(table, table_seat, number) {
        Ok(state) => state,
        Err(word) => return Err(word),
    };
    let found = look.look(&core, records.journal());
    give_back(table, table_seat, core, records);
    Ok(found)
}

impl<C: Core> SharedDriver<C> {
    // A look, unless another seat has the turn.
    fn try_look<L: Look<C>>(&self, seat: &mut Seat<C>, look: &L) -> Result<L::Found, u64>
        requires own { seat.old.driver ≡ self.now.id }
        ensures same { (seat.new.driver ≡ seat.old.driver) × (seat.new.number ≡ seat.old.number) }
        ensures ok { IfOk result (λ found. OnlySaw seat.old seat.new × (seat.new.busy ≡ seat.old.busy) × L.tells look.now seat.new.seen found) }
        ensures fits { IfOk result (λ found. HasCore C.stands seat.new) }
        ensures err { IfErr result (λ word. (word ≢ 0) × (word ≢ seat.old.number + 1) × (seat.new.seen ≡ seat.old.seen) × (seat.new.mine ≡ seat.old.mine) × (seat.new.busy ≡ seat.old.busy ++ word ∷ [])) }
    {
        let found = one_look(&self.table, &mut seat.table_seat, seat.number, look);
        if found.is_ok() {
            self.pass_turn();
        }
        found
    }

    /// Looks at the driver: what it finds is of all that the seat has seen then, and a core stands for that. It adds no entry. It may wait for the turn.
    pub fn look<R: Wait, L: Look<C>>(&self, rt: &R, seat: &mut Seat<C>, look: &L) -> L::Found
        requires own { seat.old.driver ≡ self.now.id }
        ensures same { (seat.new.driver ≡ seat.old.driver) × (seat.new.number ≡ seat.old.number) }
        ensures busy { FoundBusy seat.old seat.new }
        ensures saw { OnlySaw seat.old seat.new }
        ensures told { L.tells look.now seat.new.seen result }
        ensures fits { HasCore C.stands seat.new }
    {
        for _ in rt.forever() {
            match self.try_look(seat, look) {
                Ok(found) => return found,
                Err(word) => self.await_turn(rt, word),
            }
        }
        unreachable!()
    }
}

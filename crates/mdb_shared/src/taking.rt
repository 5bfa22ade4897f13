//! Entries that are handed out: each comes out once, in the turn, and takes no memory of the driver from then on.

ghost use Rattle.std.specs.Prelude.{◌≡◌, ◌≢◌, ◌≤◌, ◌<◌, ◌+◌, ◌^◌, ◌∷◌, ◌++◌, [], IfOk, IfErr, length, drop};
ghost use Rattle.mdb_turns.specs.Stepping.{IsReady, seat_view, OnlySaw};
ghost use Rattle.mdb_shared.specs.Seats.{FoundBusy, HasCore};
ghost use Rattle.mdb_turns.specs.Turning.{found_busy};

use crate::driver::SharedDriver;
use crate::seat::Seat;
use mdb_journal::Taken;
use mdb_log::Core;
use mdb_turns::{Lock, TableSeat, give_back, take};
use std::alloc::Global;
use std::sync::Wait;

// What was not handed out yet, for the seat of this number, unless the turn is taken.
fn one_take<C: Core>(
    table: &Lock<C>,
    table_seat: &mut TableSeat<C>,
    number: u32,
    alloc: Global,
) -> Result<Taken, u64>
    requires table { (table.now.shared.table_id.words ≡ 2) × (table.now.shared.table_id.slots ≡ 1) × (table_seat.old.table_id ≡ table.now.shared.table_id) }
    requires ready { IsReady number table_seat.old.me }
    ensures same { (table_seat.new.table_id ≡ table_seat.old.table_id) × (table_seat.new.id ≡ table_seat.old.id) × IsReady number table_seat.new.me }
    ensures ok { IfOk result (λ taken. OnlySaw (seat_view table_seat.old.table_id number table_seat.old.me.0) (seat_view table_seat.new.table_id number table_seat.new.me.0) × (table_seat.new.me.0.busy ≡ table_seat.old.me.0.busy) × ((taken.from ≤ length table_seat.new.me.0.seen) × (length table_seat.new.me.0.seen < 2 ^ 64)) × (taken.entries ≡ drop taken.from table_seat.new.me.0.seen)) }
    ensures fits { IfOk result (λ taken. HasCore C.stands (seat_view table_seat.new.table_id number table_seat.new.me.0)) }
    ensures err { IfErr result (λ word. (table_seat.new.me ≡ (found_busy table_seat.old.me.0 word, [])) × (word ≢ 0) × (word ≢ number + 1)) }
{
    let (core, mut records) = match take(table, table_seat, number) {
        Ok(state) => state,
        Err(word) => return Err(word),
    };
    let taken = records.take(alloc);
    give_back(table, table_seat, core, records);
    Ok(taken)
}

impl<C: Core> SharedDriver<C> {
    /// Hands out the entries that nobody took, oldest first, unless another seat has the turn: then it answers the turn word that it found. They are all
    /// entries that the seat has seen then, but for the first `from`, which were taken before. It adds no entry, waits for nobody and takes no memory.
    pub fn try_take(&self, alloc: Global, seat: &mut Seat<C>) -> Result<Taken, u64>
        requires own { seat.old.driver ≡ self.now.id }
        ensures same { (seat.new.driver ≡ seat.old.driver) × (seat.new.number ≡ seat.old.number) }
        ensures ok { IfOk result (λ taken. OnlySaw seat.old seat.new × (seat.new.busy ≡ seat.old.busy) × ((taken.from ≤ length seat.new.seen) × (length seat.new.seen < 2 ^ 64)) × (taken.entries ≡ drop taken.from seat.new.seen)) }
        ensures fits { IfOk result (λ taken. HasCore C.stands seat.new) }
        ensures err { IfErr result (λ word. (word ≢ 0) × (word ≢ seat.old.number + 1) × (seat.new.seen ≡ seat.old.seen) × (seat.new.mine ≡ seat.old.mine) × (seat.new.busy ≡ seat.old.busy ++ word ∷ [])) }
    {
        let taken = one_take(&self.table, &mut seat.table_seat, seat.number, alloc);
        if taken.is_ok() {
            self.pass_turn();
        }
        taken
    }

    /// Hands out the entries that nobody took, oldest first: all that the seat has seen then, but for the first `from`, which were taken before. No clause ties
    /// `from` to other takes. It adds no entry and takes no memory. It may wait for the turn.
    pub fn take<R: Wait>(&self, rt: &R, alloc: Global, seat: &mut Seat<C>) -> Taken
        requires own { seat.old.driver ≡ self.now.id }
        ensures same { (seat.new.driver ≡ seat.old.driver) × (seat.new.number ≡ seat.old.number) }
        ensures busy { FoundBusy seat.old seat.new }
        ensures saw { OnlySaw seat.old seat.new }
        ensures within { (result.from ≤ length seat.new.seen) × (length seat.new.seen < 2 ^ 64) }
        ensures entries { result.entries ≡ drop result.from seat.new.seen }
        ensures fits { HasCore C.stands seat.new }
    {
        for _ in rt.forever() {
            match self.try_take(alloc, seat) {
                Ok(taken) => return taken,
                Err(word) => self.await_turn(rt, word),
            }
        }
        unreachable!()
    }
}

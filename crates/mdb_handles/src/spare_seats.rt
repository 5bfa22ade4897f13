//! Seats for more threads than a driver has seats: a seat is lent and comes back.

ghost use Rattle.std.specs.Prelude.{◌≡◌, All, IfErr};

use crate::handle::Handle;
use mdb_base::OutOfMemory;
use mdb_log::Core;
use mdb_shared::{Seat, SharedDriver};
use std::alloc::Global;
use std::rt::Clock;
use std::sync::{Condvar, CondvarTimeouts, Mutex, Wait};
use std::time::Duration;

// A handle, or the place of one that is lent.
type SpareHandle<'a, C, R> = Option<Handle<'a, C, R>>;

/// Handles of one driver that threads borrow in turn, each with the numbers for requests that its seat has left. It takes memory when it is made, and none later.
/// A value that comes out of a lock is known by its type alone, and two drivers of one type have one: so no clause says which driver a lent handle is of, nor that
/// these calls add no entry. Each handle is to go back to where it was lent.
#[derive(Drop)]
pub struct SpareSeats<'a, C: Core, R: Wait> {
    places: Mutex<Vec<SpareHandle<'a, C, R>>>,
    returned: Condvar,
}

fn are_all_lent<T>(places: &Vec<Option<T>>) -> bool {
    places.iter().all(|place| place.is_none())
}

// What isn't lent is taken out of its place. It knows nothing of what the places hold.
fn take_one<T>(places: &mut Vec<Option<T>>) -> Option<T> {
    let at = places.iter().position(|place| place.is_some())?;
    places[at].take()
}

// It is put into the place of one that is lent.
fn put_one<T: Drop>(places: &mut Vec<Option<T>>, spare: T) -> Result<(), T>
    ensures { IfErr result (λ back. back ≡ spare) }
{
    let Some(at) = places.iter().position(|place| place.is_none()) else {
        return Err(spare);
    };
    places[at] = Some(spare);
    Ok(())
}

impl<'a, C: Core, R: Wait> SpareSeats<'a, C, R> {
    /// A handle at each of these seats, which made no request yet.
    pub fn new(
        driver: &'a SharedDriver<C>,
        rt: &'a R,
        alloc: Global,
        seats: Vec<Seat<C>>,
    ) -> Result<SpareSeats<'a, C, R>, OutOfMemory>
        requires own { All (λ s. s.driver ≡ driver.now.id) seats.items }
    {
        let mut places = Vec::new(alloc);
        for seat in seats {
            places.push(Some(Handle::new(driver, rt, alloc, seat)))?;
        }
        Ok(SpareSeats {
            places: Mutex::new(places),
            returned: Condvar::new(),
        })
    }

    /// Waits until a seat isn't lent, and lends it. Keep it until each connection that it checked out is back: where all seats are lent to threads that wait for a
    /// connection, and who has the connection waits for a seat to give it back, nobody goes on. `lend_within` ends such a wait, and `check_out_within` as well.
    pub fn lend(&self, rt: &R) -> Handle<'a, C, R> {
        for _ in rt.forever() {
            let places = self.places.lock(rt);
            let mut places = self
                .returned
                .wait_while(rt, places, |places| are_all_lent(places));
            if let Some(handle) = take_one(&mut places) {
                return handle;
            }
        }
        unreachable!()
    }

    /// Takes a seat back that was lent here, and wakes one thread that waits for it. It comes back itself where none is lent. One of another driver is not told
    /// apart: where a seat is lent, its place is taken by the other driver's, which is lent from then on.
    pub fn take_back(&self, rt: &R, handle: Handle<'a, C, R>) -> Result<(), Handle<'a, C, R>>
        ensures back { IfErr result (λ back. back ≡ handle.entry) }
    {
        let put = put_one(&mut self.places.lock(rt), handle);
        self.returned.notify_one();
        put
    }
}

impl<'a, C: Core, R: Wait + Clock> SpareSeats<'a, C, R> {
    /// Waits until a seat isn't lent, for no longer than this, and lends it. None where the time is over.
    pub fn lend_within(&self, rt: &R, limit: Duration) -> Option<Handle<'a, C, R>> {
        let places = self.places.lock(rt);
        let (mut places, _end) = self
            .returned
            .wait_timeout_while(rt, places, limit, |places| are_all_lent(places));
        take_one(&mut places)
    }
}

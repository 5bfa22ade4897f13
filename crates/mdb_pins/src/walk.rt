//! What a party does to the pins of each connection that it was given.

ghost use Rattle.std.specs.Prelude.{◌≡◌, ◌&&◌, not, IfOk, OnOk};
ghost use Rattle.mdb_tallies.specs.Tables.{at};
ghost use Rattle.mdb_pins.specs.Numbered.{of_number};
ghost use Rattle.mdb_pins.specs.Counts.{keeper};
ghost use Rattle.mdb_pins.specs.Following.{lends, keeps, left_by, taken_by, by_how, Walked, EachOnce};

use crate::doings::Doings;
use crate::numbered::Numbered;
use crate::pins::{Pins, sum};
use mdb_base::OutOfMemory;
use mdb_tallies::{Lists, Place, DefaultMap, Tables, is_kept, is_lent, one_if};

/// What a party did that concerns the pins of what it was given.
#[derive(Clone, Copy, Debug)]
pub enum How {
    GaveUp,
    GaveBack,
    Pinned,
}

/// What the one did that keeps the connection, where one party does.
pub fn keeper(doings: &Numbered<Doings>, kept: u64, pins: &Pins) -> Doings
    ensures { result ≡ keeper kept (of_number doings.now) pins.now }
{
    if kept == 1 {
        doings.get(pins.keepers)
    } else {
        Doings {
            pins: 0,
            give_ups: 0,
            pins_then: 0,
        }
    }
}

// The party was granted it and holds it so: it did not take it, neither returned nor did its request end, and it is not pending.
fn lends(tables: &Tables, party: u32, place: Place) -> bool
    ensures { result ≡ lends tables.now party place.pool place.id }
{
    let gift = tables.gifts.get((party, place.pool, place.id));
    let known = tables.parties.get((party, 0, 0));
    let connection = tables.connections.get((place.pool, place.id, 0));
    is_lent(&gift, &known) && !connection.is_pending()
}

// The party took it, and did not return.
fn keeps(tables: &Tables, party: u32, place: Place) -> bool
    ensures { result ≡ keeps tables.now party place.pool place.id }
{
    let gift = tables.gifts.get((party, place.pool, place.id));
    let known = tables.parties.get((party, 0, 0));
    is_kept(&gift, &known)
}

// The pins after the party left the connection, which so many kept.
fn left_by(doings: &Numbered<Doings>, kept: u64, party: u32, old: Pins) -> Result<Pins, OutOfMemory>
    ensures { IfOk result (λ x. x ≡ left_by kept (of_number doings.now) party old) }
{
    let own = doings.get(u64::from(party));
    let left = old.once_left(party, own.pins)?;
    let stays = keeper(doings, kept.saturating_sub(1), &left);
    left.backed(&stays)
}

/// The party comes to keep the connection by a take: it did not return, and did not keep it.
pub fn is_new(tables: &Tables, party: u32, place: Place) -> bool
    ensures { result ≡ not (at tables.now.parties party 0 0).is_returned && not (keeps tables.now party place.pool place.id) }
{
    let known = tables.parties.get((party, 0, 0));
    !known.is_returned && !keeps(tables, party, place)
}

/// The pins after the party took the connection, which so many kept.
pub fn taken_by(
    doings: &Numbered<Doings>,
    is_new: bool,
    kept: u64,
    party: u32,
    old: Pins,
) -> Result<Pins, OutOfMemory>
    ensures { IfOk result (λ x. x ≡ taken_by is_new kept (of_number doings.now) party old) }
{
    let own = doings.get(u64::from(party));
    let taken = old.once_taken(is_new, party, own.pins)?;
    let keep = sum(kept, one_if(is_new))?;
    let alone = keeper(doings, keep, &taken);
    Ok(taken.hearing(&alone))
}

// The pins of one connection after what one of its parties did.
fn by_how(
    how: How,
    tables: &Tables,
    doings: &Numbered<Doings>,
    party: u32,
    place: Place,
    old: Pins,
) -> Result<Pins, OutOfMemory>
    ensures { IfOk result (λ x. x ≡ by_how how tables.now (of_number doings.now) party place.pool place.id old) }
{
    let kept = tables.connections.get((place.pool, place.id, 0)).kept;
    let lends = lends(tables, party, place);
    let alone = keeper(doings, kept, &old);
    match how {
        How::GaveUp => { if lends { old.backed(&alone) } else { Ok(old) } }
        How::Pinned => {
            if lends {
                old.once_pinned(&alone)
            } else {
                Ok(old)
            }
        }
        How::GaveBack => {
            if keeps(tables, party, place) {
                left_by(doings, kept, party, old)
            } else if lends {
                old.backed(&alone)
            } else {
                Ok(old)
            }
        }
    }
}

/// What the party did is done to the pins of each connection of its list.
pub fn walk(
    pins: &mut DefaultMap<Pins>,
    doings: &Numbered<Doings>,
    tables: &Tables,
    how: How,
    list: &Lists<Place>,
    party: u32,
) -> Result<(), OutOfMemory>
    ensures { OnOk result (EachOnce list.now party → Walked how tables.now (of_number doings.now) list.now party pins.old pins.new) }
{
    let count = list.len(party);
    for index in 0..count {
        let place = list.get(party, index);
        let old = pins.get((place.pool, place.id, 0));
        let new = by_how(how, tables, doings, party, place, old)?;
        pins.set((place.pool, place.id, 0), new)?;
    }
    Ok(())
}

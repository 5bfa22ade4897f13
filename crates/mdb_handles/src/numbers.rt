//! Numbers for requests. A party's number is never used again in a driver's log, whichever seat used it.

ghost use Rattle.std.specs.Prelude.{◌≡◌, ◌+◌, ◌<◌, ◌≤◌, ℕ, IfSome, IfNone};
ghost use Rattle.mdb_handles.specs.Numbers.{IsNumberOf, first_of, end_of};

use std::marker::Model;

// How many numbers there are.
const ALL: u64 = 1 << 32;

/// The numbers of one seat that were not used yet, in order. Of all numbers each seat of a driver has a like part, so that no two seats share one. Contracts
/// see the next number and the first one that isn't the seat's any more.
#[derive(Debug, Drop)]
pub struct PartyNumbers {
    next: u64,
    end: u64,
}

impl Model for PartyNumbers {
    ghost use Rattle.std.specs.Prelude.{◌≤◌, ◌^◌};
    ghost use Rattle.std.specs.Coded.{codes};
    ghost use Rattle.mdb_handles.specs.Numbers.{NumbersView};

    ghost Value = { NumbersView };

    ghost coded = { Prim.hlevel codes };

    ghost view = { λ n. record { next = n.next; end = n.end } };

    ghost invariant = { λ n. (n.next ≤ n.end) × (n.end ≤ 2 ^ 32) };
}

impl PartyNumbers {
    /// All numbers of the seat of this number, of a driver of so many seats. A number that is no seat's of it has none.
    pub fn new(seat: u32, seats: u32) -> PartyNumbers
        ensures next { seat < seats → result.next ≡ first_of seats seat }
        ensures end { seat < seats → result.end ≡ end_of seats seat }
        ensures none { seats ≤ seat → result.end ≡ result.next }
    {
        if seat >= seats {
            return PartyNumbers { next: 0, end: 0 };
        }
        let each = ALL / seats as u64;
        PartyNumbers {
            next: seat as u64 * each,
            end: (seat as u64 + 1) * each,
        }
    }

    /// The first of so many numbers in a row, which are used then. None where the seat has not so many left.
    pub fn take(&mut self, count: u32) -> Option<u32>
        requires { 0 < count }
        ensures some { IfSome result (λ first. (first ≡ self.old.next) × (first + count ≤ self.old.end) × (self.new.next ≡ first + count)) }
        ensures none { IfNone result ((self.old.end < self.old.next + count) × (self.new ≡ self.old)) }
        ensures end { self.new.end ≡ self.old.end }
    {
        let count = count as u64;
        if count > self.end - self.next {
            return None;
        }
        let first = self.next;
        self.next = first + count;
        Some(first as u32)
    }
}

/// No two seats of a driver share a number.
pub fn seats_share_no_number()
    ensures { (seats i j n : ℕ) → IsNumberOf seats i n → IsNumberOf seats j n → i ≡ j }
{}

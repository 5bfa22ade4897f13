//! Where parties and addresses were last seen among the pools: guesses, which are tested before they are used.

use crate::acting::named_by;
use mdb_base::ServerAddress;
use mdb_log::Act;
use std::alloc::{AllocError, Global};

// How many guesses are kept.
const GUESSES: usize = 16_384;

/// A guess of a pool's place for each number, of the number that came last among those that share it. What is not so costs a walk over the pools, and nothing else.
#[derive(Drop)]
pub struct Hints {
    places: Vec<u32>,
}

/// A number for an address: addresses that are the same have the same one.
pub(crate) fn number_of(address: &ServerAddress) -> u32 {
    let mut number = u32::from(address.port);
    for byte in address.host().as_bytes() {
        number = number.wrapping_mul(31).wrapping_add(u32::from(*byte));
    }
    number
}

impl Hints {
    /// None is kept, and no memory is taken before `begin`.
    pub(crate) fn new(alloc: Global) -> Hints {
        Hints {
            places: Vec::new(alloc),
        }
    }

    /// From now on guesses are kept.
    pub(crate) fn begin(&mut self) -> Result<(), AllocError> {
        for _ in self.places.len()..GUESSES {
            self.places.push(0)?;
        }
        Ok(())
    }

    /// The place that is guessed for the number.
    pub(crate) fn at(&self, number: u32) -> usize {
        match self.places.get(number as usize % GUESSES) {
            Some(place) => *place as usize,
            None => 0,
        }
    }

    /// The place is the guess for the number from now on, where guesses are kept.
    pub(crate) fn note(&mut self, number: u32, place: usize) {
        let Ok(place) = u32::try_from(place) else {
            return;
        };
        if let Some(guess) = self.places.get_mut(number as usize % GUESSES) {
            *guess = place;
        }
    }

    /// The pool at the place is the guess for the party that the act names.
    pub(crate) fn note_act(&mut self, act: &Act, place: usize) {
        if let Some(party) = named_by(act) {
            self.note(party, place);
        }
    }
}

//! Connections that parties are given.

ghost use Rattle.std.specs.Prelude.{◌≡◌, ◌||◌, not, true, Bool, OnOk};
ghost use Rattle.mdb_tallies.specs.Kept.{Follows, Gives};
ghost use Rattle.mdb_tallies.specs.Lists.{PushesIf};
ghost use Rattle.mdb_tallies.specs.declared.occurrence.Occurrence.TheVariants as change;

use crate::connection::Place;
use crate::counts::{is_kept, is_lent};
use crate::lists::Lists;
use crate::party::{Gift, Party};
use crate::tables::Tables;
use mdb_base::OutOfMemory;

/// The place is the last of the party's list, where the test holds.
pub fn push_if(
    test: bool,
    places: &mut Lists<Place>,
    party: u32,
    place: Place,
) -> Result<(), OutOfMemory>
    ensures { OnOk result (PushesIf test party place places.old places.new) }
{
    if test {
        places.push(party, place)?;
    }
    Ok(())
}

// The party was not given it so far.
fn is_none(gift: &Gift) -> bool
    ensures { result ≡ not (gift.now.is_granted || gift.now.is_taken) }
{
    !(gift.is_granted || gift.is_taken)
}

impl Tables {
    /// The party was given the connection in this way.
    pub fn give(&mut self, party: u32, pool: u32, id: u32, gift: Gift) -> Result<(), OutOfMemory>
        requires { gift.is_granted || gift.is_taken ≡ true }
        ensures { OnOk result (Gives party pool id gift self.old self.new) }
    {
        let before = self.gifts.get((party, pool, id));
        push_if(
            is_none(&before),
            &mut self.places,
            party,
            Place { pool, id },
        )?;
        self.gifts.set((party, pool, id), gift)?;
        Ok(())
    }

    #[tactic(auto, using(crate::proofs::GivenTo::given_follows))]
    pub fn take(&mut self, party: u32, pool: u32, id: u32) -> Result<(), OutOfMemory>
        ensures { OnOk result ((b : Bool) → Follows b (change.Taken party pool id) self.old self.new) }
    {
        let gift = self.gifts.get((party, pool, id));
        let known = self.parties.get((party, 0, 0));
        let old = self.connections.get((pool, id, 0));
        let kept = is_kept(&gift, &known);
        let new = old.once_taken(kept, !known.is_returned, is_lent(&gift, &known))?;
        self.replace(pool, id, new, 0)?;
        let taken = Gift {
            is_taken: true,
            ..gift
        };
        self.give(party, pool, id, taken)?;
        Ok(())
    }

    #[tactic(auto, using(crate::proofs::GivenTo::given_follows))]
    pub fn grant(&mut self, party: u32, pool: u32, id: u32) -> Result<(), OutOfMemory>
        ensures { OnOk result ((b : Bool) → Follows b (change.Granted party pool id) self.old self.new) }
    {
        let gift = self.gifts.get((party, pool, id));
        let known = self.parties.get((party, 0, 0));
        let old = self.connections.get((pool, id, 0));
        let granted = Gift {
            is_granted: true,
            ..gift
        };
        let new = old.once_granted(is_lent(&gift, &known), is_lent(&granted, &known))?;
        self.replace(pool, id, new, 0)?;
        self.give(party, pool, id, granted)?;
        let marked = Party {
            is_granted: true,
            ..known
        };
        self.parties.set((party, 0, 0), marked)?;
        Ok(())
    }
}

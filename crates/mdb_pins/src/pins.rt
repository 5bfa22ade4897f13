//! What was read of the pins of one connection.

ghost use Rattle.std.specs.Prelude.{◌≡◌, ◌+◌, IfOk};
ghost use Rattle.mdb_pins.specs.Counts.{is_above, is_at_pin, settled, backed, once_pinned, once_unpinned, once_left, once_taken, hearing};

use crate::doings::Doings;
use mdb_base::OutOfMemory;
use mdb_tallies::one_more;

/// The pins of a connection but for those that its keepers made: a party keeps what it took and did not return.
#[derive(Clone, Copy, Debug)]
pub struct Pins {
    /// Those that no keeper made, and all that parties made that keep it no more.
    pub made: u64,
    /// How many of all these its keepers, and parties that keep it no more, had made when they took it.
    pub before: u64,
    pub dropped: u64,
    /// The sum of the numbers of the parties that keep it: where one does, it is that party's number.
    pub keepers: u64,
    /// How often its keeper, where it has one, had given up when this was written.
    pub heard: u64,
    /// It stood at its pin then.
    pub is_pinned: bool,
}

// A count past 2^64 - 1 is more than memory could have brought.
pub fn sum(a: u64, b: u64) -> Result<u64, OutOfMemory>
    ensures { IfOk result (λ n. n ≡ a + b) }
{
    match a.checked_add(b) {
        Some(sum) => Ok(sum),
        None => Err(OutOfMemory),
    }
}

impl Pins {
    // More pins were made than dropped, where its keeper made so many.
    fn is_above(&self, own: u64) -> Result<bool, OutOfMemory>
        ensures { IfOk result (λ b. b ≡ is_above self.now own) }
    {
        Ok(sum(self.dropped, self.before)? < sum(self.made, own)?)
    }

    /// It stands at its pin, where its keeper did this.
    pub fn is_at_pin(&self, keeper: &Doings) -> Result<bool, OutOfMemory>
        ensures { IfOk result (λ b. b ≡ is_at_pin keeper.now self.now) }
    {
        let was_above = self.is_above(keeper.pins_then)?;
        Ok(self.is_pinned || (self.heard < keeper.give_ups && was_above))
    }

    /// These pins, with all that their keeper did heard.
    pub fn settled(self, keeper: &Doings) -> Result<Pins, OutOfMemory>
        ensures { IfOk result (λ x. x ≡ settled keeper.now self) }
    {
        let is_pinned = self.is_at_pin(keeper)?;
        Ok(Pins {
            is_pinned,
            heard: keeper.give_ups,
            ..self
        })
    }

    /// It comes back: a party that holds it returns it or gives up.
    pub fn backed(self, keeper: &Doings) -> Result<Pins, OutOfMemory>
        ensures { IfOk result (λ x. x ≡ backed keeper.now self) }
    {
        let is_pinned = self.is_above(keeper.pins)?;
        Ok(Pins {
            is_pinned,
            heard: keeper.give_ups,
            ..self
        })
    }

    /// One pin more, of no keeper.
    pub fn once_pinned(self, keeper: &Doings) -> Result<Pins, OutOfMemory>
        ensures { IfOk result (λ x. x ≡ once_pinned keeper.now self) }
    {
        let settled = self.settled(keeper)?;
        let made = one_more(self.made)?;
        Ok(Pins { made, ..settled })
    }

    /// One pin less.
    pub fn once_unpinned(self, keeper: &Doings) -> Result<Pins, OutOfMemory>
        ensures { IfOk result (λ x. x ≡ once_unpinned keeper.now self) }
    {
        let settled = self.settled(keeper)?;
        let dropped = one_more(self.dropped)?;
        let fewer = Pins { dropped, ..settled };
        let is_above = fewer.is_above(keeper.pins)?;
        Ok(Pins {
            is_pinned: settled.is_pinned && is_above,
            ..fewer
        })
    }

    /// This party keeps it no more, and made so many pins.
    pub fn once_left(self, party: u32, pins: u64) -> Result<Pins, OutOfMemory>
        ensures { IfOk result (λ x. x ≡ once_left party pins self) }
    {
        let made = sum(self.made, pins)?;
        Ok(Pins {
            made,
            keepers: self.keepers.saturating_sub(u64::from(party)),
            ..self
        })
    }

    /// This party took it, and keeps it from now on where the test holds; it made so many pins.
    pub fn once_taken(self, is_new: bool, party: u32, pins: u64) -> Result<Pins, OutOfMemory>
        ensures { IfOk result (λ x. x ≡ once_taken is_new party pins self) }
    {
        let (before, keepers) = if is_new {
            (
                sum(self.before, pins)?,
                sum(self.keepers, u64::from(party))?,
            )
        } else {
            (self.before, self.keepers)
        };
        Ok(Pins {
            before,
            keepers,
            is_pinned: false,
            ..self
        })
    }

    /// All that its keeper did is heard.
    pub fn hearing(self, keeper: &Doings) -> Pins
        ensures { result ≡ hearing keeper.now self }
    {
        Pins {
            heard: keeper.give_ups,
            ..self
        }
    }
}

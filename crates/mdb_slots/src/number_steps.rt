//! Numbers that came to a set since it was last committed.

ghost use Rattle.std.specs.Prelude.{◌≡◌, ◌≤◌, ◌+◌, ◌||◌, ◌++◌, ◌∷◌, [], ℕ, None, length, OnOk, OnErr};
ghost use Rattle.mdb_intervals.specs.Spans.{has as is_within};
ghost use Rattle.mdb_slots.specs.Lists.{has};
ghost use Rattle.mdb_slots.specs.Open.{or_else};
ghost use Rattle.mdb_slots.specs.NumberSet.{put_all};

use mdb_base::OutOfMemory;
use mdb_intervals::Spans;
use std::alloc::Global;
use std::marker::Model;

/// Changes of a set that were taken back, to be made again: the numbers that came, and where all spans go if there is no room where they are.
#[derive(Drop)]
pub struct NumberSetRedo {
    numbers: Vec<u32>,
    space: Option<Spans>,
}

impl Model for NumberSetRedo {
    ghost use Rattle.std.specs.Prelude.{◌≡◌, [], option_map, IfSome};
    ghost use Rattle.mdb_slots.specs.NumberSet.{NumberSteps};

    ghost Value = { NumberSteps };

    ghost view = { λ t. record { numbers = t.numbers.items; capacity = option_map (λ s. s.capacity) t.space } };

    ghost invariant = { λ t. IfSome t.space (λ s. s.spans ≡ []) };
}

impl NumberSetRedo {
    /// No numbers. It takes no memory.
    pub(crate) fn none(alloc: Global) -> NumberSetRedo
        ensures { result ≡ record { numbers = []; capacity = None } }
    {
        NumberSetRedo {
            numbers: Vec::new(alloc),
            space: None,
        }
    }

    /// Whether the number came.
    pub(crate) fn contains(&self, number: u32) -> bool
        ensures { result ≡ has number self.now.numbers }
    {
        self.numbers.contains(&number)
    }

    // How many spans there are places for, once they have moved.
    fn places(&self, settled: &Spans) -> usize
        ensures { result ≡ or_else self.now.capacity settled.now.capacity }
    {
        match &self.space {
            None => settled.capacity(),
            Some(space) => space.capacity(),
        }
    }

    // Room for one number more beside the settled ones.
    fn make_room(&mut self, settled: &Spans) -> Result<(), OutOfMemory>
        ensures numbers { self.new.numbers ≡ self.old.numbers }
        ensures room { OnOk result (length settled.now.spans + length self.new.numbers + 1 ≤ or_else self.new.capacity settled.now.capacity) }
        ensures same { OnErr result (self.new ≡ self.old) }
    {
        let Some(needed) = settled.len().checked_add(self.numbers.len()) else {
            return Err(OutOfMemory);
        };
        if needed < self.places(settled) {
            return Ok(());
        }
        let mut space = Spans::new(*self.numbers.allocator());
        space.reserve(needed.saturating_add(1).saturating_mul(2))?;
        self.space = Some(space);
        Ok(())
    }

    /// The number comes last, beside the settled ones.
    pub(crate) fn push(&mut self, settled: &Spans, number: u32) -> Result<(), OutOfMemory>
        ensures numbers { OnOk result (self.new.numbers ≡ self.old.numbers ++ number ∷ []) }
        ensures room { OnOk result (length settled.now.spans + length self.new.numbers ≤ or_else self.new.capacity settled.now.capacity) }
        ensures same { OnErr result (self.new.numbers ≡ self.old.numbers) }
        ensures kept { OnErr result (length settled.now.spans + length self.old.numbers ≤ or_else self.old.capacity settled.now.capacity → length settled.now.spans + length self.new.numbers ≤ or_else self.new.capacity settled.now.capacity) }
    {
        self.make_room(settled)?;
        self.numbers.push(number)?;
        Ok(())
    }
}

// The numbers come. It takes no memory.
fn insert_all(spans: &mut Spans, numbers: &[u32])
    requires room { length spans.old.spans + length numbers.now ≤ spans.old.capacity }
    ensures spans { spans.new.spans ≡ put_all numbers.now spans.old.spans }
    ensures has { (n : ℕ) → is_within n spans.new.spans ≡ is_within n spans.old.spans || has n numbers.now }
    ensures capacity { spans.new.capacity ≡ spans.old.capacity }
    ensures within { length spans.new.spans ≤ spans.new.capacity }
{
    for number in numbers {
        spans.insert_ready(*number);
    }
}

/// The numbers come to the settled ones, and are none. It takes no memory.
pub(crate) fn settle_all(settled: &mut Spans, fresh: &mut NumberSetRedo)
    requires fits { length settled.old.spans + length fresh.old.numbers ≤ or_else fresh.old.capacity settled.old.capacity }
    ensures spans { settled.new.spans ≡ put_all fresh.old.numbers settled.old.spans }
    ensures has { (n : ℕ) → is_within n settled.new.spans ≡ is_within n settled.old.spans || has n fresh.old.numbers }
    ensures capacity { settled.new.capacity ≡ or_else fresh.old.capacity settled.old.capacity }
    ensures within { length settled.new.spans ≤ settled.new.capacity }
    ensures none { fresh.new ≡ record { numbers = []; capacity = None } }
{
    if let Some(mut space) = fresh.space.take() {
        settled.move_to(&mut space);
        *settled = space;
    }
    insert_all(settled, fresh.numbers.as_slice());
    fresh.numbers.clear();
}

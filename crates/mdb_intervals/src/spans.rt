//! Sets of numbers as spans.

ghost use Rattle.std.specs.Prelude.{◌≡◌, ◌==◌, ◌||◌, ◌≤◌, ◌<◌, ◌+◌, ◌-◌, ℕ, true, [], length, OnOk};
ghost use Rattle.mdb_intervals.specs.Spans.{has, put};

use crate::span::{Span, ended, move_all, put};
use std::alloc::{AllocError, Global};
use std::marker::Model;

/// A set of numbers: spans in their order, of which no two touch. So it takes memory by the gaps between its numbers, and none for more numbers in a row.
#[derive(Drop)]
pub struct Spans {
    spans: Vec<Span>,
}

impl Model for Spans {
    ghost use Rattle.std.specs.Prelude.{vec_capacity};
    ghost use Rattle.mdb_intervals.specs.Spans.{SpanSet, AreApart};

    ghost Value = { SpanSet };

    ghost view = { λ s. record { spans = s.spans.items; capacity = vec_capacity s.spans } };

    ghost invariant = { λ s. AreApart 0 s.spans.items };
}

impl Spans {
    /// No numbers. It takes no memory.
    pub fn new(alloc: Global) -> Spans
        ensures { result.spans ≡ [] }
    {
        Spans {
            spans: Vec::new(alloc),
        }
    }

    /// How many spans there are.
    pub fn len(&self) -> usize
        ensures { result ≡ length self.now.spans }
    {
        self.spans.len()
    }

    /// How many spans there may be without memory.
    pub fn capacity(&self) -> usize
        ensures { result ≡ self.now.capacity }
    {
        self.spans.capacity()
    }

    /// Whether the number is one of the set.
    pub fn contains(&self, number: u32) -> bool
        ensures { result ≡ has number self.now.spans }
    {
        let at = ended(self.spans.as_slice(), number);
        at < self.spans.len() && self.spans[at].from <= number
    }

    /// So many more spans may come without memory.
    pub fn reserve(&mut self, more: usize) -> Result<(), AllocError>
        ensures spans { self.new.spans ≡ self.old.spans }
        ensures room { OnOk result (length self.new.spans + more ≤ self.new.capacity) }
        ensures kept { self.old.capacity ≤ self.new.capacity }
    {
        self.spans.reserve(more)?;
        Ok(())
    }

    /// The number comes, if it isn't there. It takes no memory, and no place where the number before it is there.
    pub fn insert_ready(&mut self, number: u32)
        requires { length self.old.spans < self.old.capacity }
        ensures spans { self.new.spans ≡ put number self.old.spans }
        ensures has { (n : ℕ) → has n self.new.spans ≡ n == number || has n self.old.spans }
        ensures places { length self.new.spans ≤ length self.old.spans + 1 }
        ensures upward { has (number - 1) self.old.spans ≡ true → length self.new.spans ≤ length self.old.spans }
        ensures capacity { self.new.capacity ≡ self.old.capacity }
    {
        put(&mut self.spans, number);
    }

    /// All numbers go over to a set that has none, and room for them. It takes no memory.
    pub fn move_to(&mut self, other: &mut Spans)
        requires none { other.old.spans ≡ [] }
        requires room { length self.old.spans ≤ other.old.capacity }
        ensures other { other.new ≡ record other.old { spans = self.old.spans } }
        ensures none { self.new ≡ record self.old { spans = [] } }
    {
        move_all(&mut self.spans, &mut other.spans);
    }
}

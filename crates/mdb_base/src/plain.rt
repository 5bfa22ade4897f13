//! A source and a sink that never fail and take no memory.

ghost use Rattle.std.specs.Prelude.{◌≡◌, ◌≤◌, length, Some, Ok};

use crate::memory_source::copy_front;
use crate::outside::{Failed, Sink, Source};

/// A source that holds its bytes, and gives as many as there is room for.
#[derive(Drop)]
pub struct PlainSource {
    held: Vec<u8>,
    at: usize,
    ghost within: { at ≤ length held.items },
}

impl PlainSource {
    ghost use Rattle.mdb_base.specs.Memory.{plain_left};

    /// A source of these bytes, of which none is read yet.
    pub fn new(held: Vec<u8>) -> PlainSource
        ensures { plain_left result ≡ Some held.items }
    {
        PlainSource { held, at: 0 }
    }
}

impl Source for PlainSource {
    ghost use Rattle.std.specs.Prelude.{drop, None};
    ghost use Rattle.std.specs.Io.{ReadsAtMost};
    ghost use Rattle.std.specs.Io.KnownBytes.{ReadConsumes};
    ghost use Rattle.mdb_base.specs.Memory.{plain_left, plain_rest, plain_count};

    ghost left = { plain_left };

    ghost faults = { λ s. 0 };

    ghost calls = { λ s. None };

    fn read(&mut self, into: &mut [u8]) -> Result<usize, Failed>
        ensures bound { ReadsAtMost result into.new }
        ensures bytes { ReadConsumes (plain_left self.old) (plain_left self.new) result into.new }
        ensures count { result ≡ Ok (plain_count self.old (length into.old)) }
        ensures left { plain_rest self.new ≡ drop (plain_count self.old (length into.old)) (plain_rest self.old) }
    {
        let rest = &self.held.as_slice()[self.at..];
        let count = rest.len().min(into.len());
        copy_front(into, &rest[..count]);
        self.at += count;
        Ok(count)
    }
}

/// A sink that takes every piece whole and tells nothing.
#[derive(Clone, Copy, Debug, Default, PartialEq, Eq)]
pub struct NullSink;

impl NullSink {
    pub fn new() -> NullSink {
        NullSink
    }
}

impl Sink for NullSink {
    ghost use Rattle.std.specs.Prelude.{None};

    ghost held = { λ s. None };

    ghost faults = { λ s. 0 };

    fn write(&mut self, piece: &[u8]) -> Result<usize, Failed>
        ensures whole { result ≡ Ok (length piece.now) }
    {
        Ok(piece.len())
    }

    fn flush(&mut self) -> Result<(), Failed>
        ensures fine { result ≡ Ok tt }
    {
        Ok(())
    }
}

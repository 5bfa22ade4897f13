//! Sources and sinks over streams. They tell no bytes: that a stream carries what was read or written is trusted.

ghost use Rattle.std.specs.Prelude.{◌≡◌};

use crate::outside::{Failed, Sink, Source};
use std::io::{Read, Write};

/// A source over any reader.
#[derive(Drop)]
pub struct Reading<R> {
    inner: R,
    faults: u64,
}

impl<R> Reading<R> {
    ghost use Rattle.mdb_base.specs.Streams.{reading_faults};

    /// A source over this reader, which has not failed yet.
    pub fn new(inner: R) -> Reading<R>
        ensures faults { reading_faults result ≡ 0 }
    {
        Reading { inner, faults: 0 }
    }
}

impl<R: Read> Source for Reading<R> {
    ghost use Rattle.std.specs.Prelude.{None};
    ghost use Rattle.mdb_base.specs.Streams.{reading_faults};

    ghost left = { λ s. None };

    ghost faults = { reading_faults };

    ghost calls = { λ s. None };

    fn read(&mut self, into: &mut [u8]) -> Result<usize, Failed> {
        match self.inner.read(into) {
            Ok(count) => Ok(count),
            Err(_) => {
                self.faults = self.faults.saturating_add(1);
                Err(Failed)
            }
        }
    }
}

/// A sink over any writer.
#[derive(Drop)]
pub struct Writing<W> {
    inner: W,
    faults: u64,
}

impl<W> Writing<W> {
    ghost use Rattle.mdb_base.specs.Streams.{writing_faults};

    /// A sink over this writer, which has not failed yet.
    pub fn new(inner: W) -> Writing<W>
        ensures faults { writing_faults result ≡ 0 }
    {
        Writing { inner, faults: 0 }
    }
}

impl<W: Write> Sink for Writing<W> {
    ghost use Rattle.std.specs.Prelude.{None};
    ghost use Rattle.mdb_base.specs.Streams.{writing_faults};

    ghost held = { λ s. None };

    ghost faults = { writing_faults };

    fn write(&mut self, piece: &[u8]) -> Result<usize, Failed> {
        match self.inner.write(piece) {
            Ok(0) if !piece.is_empty() => {
                self.faults = self.faults.saturating_add(1);
                Ok(0)
            }
            Ok(count) => Ok(count),
            Err(_) => {
                self.faults = self.faults.saturating_add(1);
                Err(Failed)
            }
        }
    }

    fn flush(&mut self) -> Result<(), Failed> {
        match self.inner.flush() {
            Ok(()) => Ok(()),
            Err(_) => {
                self.faults = self.faults.saturating_add(1);
                Err(Failed)
            }
        }
    }
}

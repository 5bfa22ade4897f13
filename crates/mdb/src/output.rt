//! A sink that knows whether its reader went away.

ghost use Rattle.std.specs.Prelude.{◌≤◌, ◌+◌, ◌-◌, ◌^◌, min};

use mdb_base::{Failed, Sink};
use std::io::{Error, ErrorKind, Write};

/// A sink over any writer. It tells no bytes: that a stream carries what was written is trusted.
#[derive(Drop)]
pub(crate) struct Output<W> {
    inner: W,
    faults: u64,
    is_closed: bool,
}

impl<W> Output<W> {
    /// A sink over this writer, which has not failed yet.
    pub(crate) fn new(inner: W) -> Output<W> {
        Output {
            inner,
            faults: 0,
            is_closed: false,
        }
    }

    /// Whether a write failed since nobody reads any more what is written.
    pub(crate) fn is_closed(&self) -> bool {
        self.is_closed
    }

    // Counts an error.
    fn fail(&mut self, e: &Error)
        ensures { min (self.old.faults + 1) (2 ^ 64 - 1) ≤ self.new.faults }
    {
        self.faults = self.faults.saturating_add(1);
        self.is_closed = self.is_closed || e.kind() == ErrorKind::BrokenPipe;
    }
}

impl<W: Write> Sink for Output<W> {
    ghost use Rattle.std.specs.Prelude.{None};

    ghost held = { λ s. None };

    ghost faults = { λ s. s.faults };

    fn write(&mut self, piece: &[u8]) -> Result<usize, Failed> {
        match self.inner.write(piece) {
            Ok(0) if !piece.is_empty() => {
                self.faults = self.faults.saturating_add(1);
                Ok(0)
            }
            Ok(count) => Ok(count),
            Err(e) => {
                self.fail(&e);
                Err(Failed)
            }
        }
    }

    fn flush(&mut self) -> Result<(), Failed> {
        match self.inner.flush() {
            Ok(()) => Ok(()),
            Err(e) => {
                self.fail(&e);
                Err(Failed)
            }
        }
    }
}

//! A source that keeps what was read.

ghost use Rattle.std.specs.Prelude.{◌≡◌};

use mdb_base::{Failed, Source};
use mdb_lines::MAX_INPUT;
use std::alloc::Global;

/// Another source, and what was read of it: at most as much as a script may have, and as far as there was memory for it.
#[derive(Drop)]
pub(crate) struct Kept<S> {
    inner: S,
    bytes: Vec<u8>,
    is_whole: bool,
}

impl<S> Kept<S> {
    /// This source, of which nothing is kept so far.
    pub(crate) fn new(alloc: Global, inner: S) -> Kept<S> {
        Kept {
            inner,
            bytes: Vec::new(alloc),
            is_whole: true,
        }
    }

    /// What was read, where all of it was kept.
    pub(crate) fn read_bytes(&self) -> Option<&[u8]> {
        if self.is_whole {
            Some(self.bytes.as_slice())
        } else {
            None
        }
    }

    // Keeps more, where nothing was left out before.
    fn keep(&mut self, more: &[u8])
        ensures { self.new.inner ≡ self.old.inner }
    {
        let has_room = self.bytes.len().saturating_add(more.len()) <= MAX_INPUT as usize;
        self.is_whole = self.is_whole && has_room && self.bytes.extend_from_slice(more).is_ok();
    }
}

impl<S: Source> Source for Kept<S> {
    ghost left = { λ k. S.left k.inner };

    ghost faults = { λ k. S.faults k.inner };

    ghost calls = { λ k. S.calls k.inner };

    fn read(&mut self, into: &mut [u8]) -> Result<usize, Failed> {
        match self.inner.read(into) {
            Ok(count) => {
                if let Some(more) = into.get(..count) {
                    self.keep(more);
                }
                Ok(count)
            }
            Err(e) => Err(e),
        }
    }
}

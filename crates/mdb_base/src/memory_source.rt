//! A source in memory.

ghost use Rattle.std.specs.Prelude.{◌≡◌, ◌<◌, ◌≤◌, length, take, Some};

use crate::outside::{Failed, Source};

/// A source that holds its bytes. Each read gives at most `piece` of them; the calls whose numbers, from 1, stand in
/// `fails` take nothing and fail.
#[derive(Drop)]
pub struct MemSource {
    held: Vec<u8>,
    piece: usize,
    fails: Vec<u64>,
    at: usize,
    calls: u64,
    faults: u64,
    ghost within: { at ≤ length held.items },
    ghost some: { 0 < piece },
}

/// Copies the front to the beginning of what there is room for.
pub fn copy_front(into: &mut [u8], front: &[u8])
    requires { length front.now ≤ length into.old }
    ensures front { take (length front.now) into.new ≡ front.now }
    ensures len { length into.new ≡ length into.old }
{
    let count = front.len();
    into[..count].copy_from_slice(front);
}

impl MemSource {
    ghost use Rattle.mdb_base.specs.Memory.{source_state, source_left, source_faults};

    /// A source of these bytes, of which none is read yet.
    pub fn new(held: Vec<u8>, piece: usize, fails: Vec<u64>) -> MemSource
        requires { 0 < piece }
        ensures left { source_left result ≡ Some held.items }
        ensures faults { source_faults result ≡ 0 }
        ensures state { source_state result ≡ record { left = held.items; piece = piece; fails = fails.items; calls = 0; faults = 0 } }
    {
        MemSource {
            held,
            piece,
            fails,
            at: 0,
            calls: 0,
            faults: 0,
        }
    }
}

impl Source for MemSource {
    ghost use Rattle.std.specs.Io.{ReadsAtMost};
    ghost use Rattle.std.specs.Io.KnownBytes.{ReadConsumes};
    ghost use Rattle.mdb_base.specs.Outside.{HasCause, Counts};
    ghost use Rattle.mdb_base.specs.Memory.{source_state, source_left, source_faults, source_calls, SourceReads};

    ghost left = { source_left };

    ghost faults = { source_faults };

    ghost calls = { source_calls };

    fn read(&mut self, into: &mut [u8]) -> Result<usize, Failed>
        ensures bound { ReadsAtMost result into.new }
        ensures bytes { ReadConsumes (source_left self.old) (source_left self.new) result into.new }
        ensures cause { HasCause (source_faults self.old) (source_faults self.new) result }
        ensures counts { Counts (source_calls self.old) (source_calls self.new) }
        ensures reads { SourceReads (source_state self.old) (source_state self.new) (length into.old) result }
    {
        self.calls = self.calls.saturating_add(1);
        if self.fails.contains(&self.calls) {
            self.faults = self.faults.saturating_add(1);
            return Err(Failed);
        }
        let rest = &self.held.as_slice()[self.at..];
        let count = rest.len().min(into.len()).min(self.piece);
        copy_front(into, &rest[..count]);
        self.at += count;
        Ok(count)
    }
}

//! A sink in memory.

ghost use Rattle.std.specs.Prelude.{◌≡◌, ◌+◌, ◌≤◌, [], length, if◌then◌else◌, IfOk, OnOk, Some, vec_len, vec_capacity};

use crate::out_of_memory::OutOfMemory;
use crate::outside::{Failed, Sink};
use std::alloc::Global;

/// A sink with room for so many bytes. Each write takes at most `piece` of them. Writes and flushes are numbered
/// together from 1; those in `fails` take nothing and fail. A write of a non-empty piece that can take no byte answers 0,
/// which counts as a fault.
#[derive(Drop)]
pub struct MemSink {
    bytes: Vec<u8>,
    room: usize,
    piece: usize,
    fails: Vec<u64>,
    flushed: usize,
    calls: u64,
    faults: u64,
    ghost reserved: { vec_len bytes + room ≤ vec_capacity bytes },
    ghost kept: { flushed ≤ length bytes.items },
}

impl MemSink {
    ghost use Rattle.mdb_base.specs.Memory.{sink_held, sink_faults, sink_taken, sink_state, fails_after, next};

    /// Reserves the room. `OutOfMemory` where there is none.
    pub fn new(
        alloc: Global,
        room: usize,
        piece: usize,
        fails: Vec<u64>,
    ) -> Result<MemSink, OutOfMemory>
        ensures held { IfOk result (λ sink. sink_held sink ≡ Some (record { taken = []; flushed = 0 })) }
        ensures faults { IfOk result (λ sink. sink_faults sink ≡ 0) }
        ensures state { IfOk result (λ sink. sink_state sink ≡ record { taken = []; flushed = 0; room = room; piece = piece; fails = fails.items; calls = 0; faults = 0 }) }
    {
        Ok(MemSink {
            bytes: Vec::with_capacity(alloc, room)?,
            room,
            piece,
            fails,
            flushed: 0,
            calls: 0,
            faults: 0,
        })
    }

    /// What was taken.
    pub fn taken(&self) -> &[u8]
        ensures { result.now ≡ sink_taken self.now }
    {
        self.bytes.as_slice()
    }

    // Whether the next call fails, which it then counts.
    fn fails_now(&mut self) -> bool
        ensures whether { result ≡ fails_after self.old.fails.items self.old.calls }
        ensures counted { self.new ≡ record self.old { calls = next self.old.calls; faults = if result then next self.old.faults else self.old.faults } }
    {
        self.calls = self.calls.saturating_add(1);
        let fails = self.fails.contains(&self.calls);
        if fails {
            self.faults = self.faults.saturating_add(1);
        }
        fails
    }
}

impl Sink for MemSink {
    ghost use Rattle.mdb_base.specs.Outside.{HasCause, Took, IsFlushed, WriteTakes, WriteCause};
    ghost use Rattle.mdb_base.specs.Memory.{sink_held, sink_faults, sink_state, SinkWrites, SinkFlushes};

    ghost held = { sink_held };

    ghost faults = { sink_faults };

    fn write(&mut self, piece: &[u8]) -> Result<usize, Failed>
        ensures bytes { WriteTakes (sink_held self.old) (sink_held self.new) piece.now result }
        ensures cause { WriteCause (sink_faults self.old) (sink_faults self.new) piece.now result }
        ensures writes { SinkWrites (sink_state self.old) (sink_state self.new) piece.now result }
    {
        if self.fails_now() {
            return Err(Failed);
        }
        let count = piece.len().min(self.piece).min(self.room);
        if count == 0 {
            if !piece.is_empty() {
                self.faults = self.faults.saturating_add(1);
            }
            return Ok(0);
        }
        self.bytes.extend_from_slice(&piece[..count]).unwrap();
        self.room -= count;
        Ok(count)
    }

    fn flush(&mut self) -> Result<(), Failed>
        ensures bytes { Took (sink_held self.old) (sink_held self.new) [] }
        ensures flushed { OnOk result (IsFlushed (sink_held self.new)) }
        ensures cause { HasCause (sink_faults self.old) (sink_faults self.new) result }
        ensures flushes { SinkFlushes (sink_state self.old) (sink_state self.new) result }
    {
        if self.fails_now() {
            return Err(Failed);
        }
        self.flushed = self.bytes.len();
        Ok(())
    }
}

//! Entries as text.

ghost use Rattle.std.specs.Prelude.{◌≡◌, ◌≤◌, ◌++◌, [], IfOk, length, take, IfSome, IfNone, OnErr};
ghost use Rattle.mdb_base.specs.Outside.{Took};
ghost use Rattle.mdb_lines.specs.LogText.{text_of};
ghost use Rattle.mdb_lines.specs.Spelling.{is_spelled};
ghost use Rattle.mdb_recorders.specs.Writing.{Wrote};

use crate::handling::EntryHandler;
use mdb_base::Sink;
use mdb_lines::log_text;
use mdb_log::{Act, Entry};
use std::alloc::Global;

/// Writes the text of entries to a sink, a line each. It does not flush the sink. Where the sink fails in the midst of the text, the writer remembers what the
/// sink took of it, and the next call goes on there: so no line is torn and none stands twice.
#[derive(Drop)]
pub struct LogWriter<K: Sink + Drop> {
    pub sink: K,
    torn: Vec<u8>,
}

/// Why entries were not written.
#[derive(Clone, Copy, Debug, PartialEq, Eq)]
pub enum WriteError {
    /// No memory for the text. Nothing was written.
    OutOfMemory,
    /// The sink failed. It took the front of the text at most: the next call, which is to be handed these entries first, goes on behind that.
    WriteFault,
    /// No line spells the step of one of them: a pool alone was readied, cleared or closed, which no step of a driver does. Nothing was written.
    NoLine,
    /// The sink took the front of other entries before. Nothing was written.
    Torn,
}

fn has_line(act: &Act) -> bool
    ensures { result ≡ is_spelled act.now }
{
    !matches!(act, Act::Ready(_) | Act::Clear(..) | Act::Close(_))
}

fn text(alloc: Global, entries: &[Entry]) -> Result<Vec<u8>, WriteError>
    ensures { IfOk result (λ text. text.items ≡ text_of entries.now) }
{
    if !entries.iter().all(|entry| has_line(&entry.step.act)) {
        return Err(WriteError::NoLine);
    }
    match log_text(alloc, entries) {
        Ok(text) => Ok(text),
        Err(_) => Err(WriteError::OutOfMemory),
    }
}

// How many of the bytes the sink takes before it fails, or all.
fn write_on<K: Sink>(sink: &mut K, text: &[u8]) -> usize
    ensures within { result ≤ length text.now }
    ensures took { Took (K.held sink.old) (K.held sink.new) (take result text.now) }
{
    let mut done = 0;
    while done < text.len() {
        let (_front, piece) = text.split_at(done);
        match sink.write(piece) {
            Ok(0) => return done,
            Ok(count) => done += count,
            Err(_) => return done,
        }
    }
    done
}

impl<K: Sink + Drop> LogWriter<K> {
    /// A writer to this sink.
    pub fn new(alloc: Global, sink: K) -> LogWriter<K>
        ensures sink { result.sink ≡ sink }
        ensures torn { result.torn.items ≡ [] }
    {
        LogWriter {
            sink,
            torn: Vec::new(alloc),
        }
    }
}

impl<K: Sink + Drop> EntryHandler for LogWriter<K> {
    ghost use Rattle.mdb_recorders.specs.Writing.{Wrote};
    ghost use Rattle.mdb_recorders.specs.Written.{wrote_both};

    type Error = WriteError;

    // The sink took the text of the entries, behind the front that was torn before.
    ghost took = { λ first last entries. Wrote (record { held = K.held first.sink; torn = first.torn.items }) (record { held = K.held last.sink; torn = last.torn.items }) entries };

    fn handle_entries(&mut self, alloc: Global, entries: &[Entry]) -> Result<(), WriteError> {
        let mut text = text(alloc, entries)?;
        if !text.as_slice().starts_with(self.torn.as_slice()) {
            return Err(WriteError::Torn);
        }
        let before = self.torn.len();
        let (_front, rest) = text.as_slice().split_at(before);
        let whole = rest.len();
        let count = write_on(&mut self.sink, rest);
        if count < whole {
            text.truncate(before + count);
            self.torn = text;
            return Err(WriteError::WriteFault);
        }
        self.torn = Vec::new(alloc);
        Ok(())
    }

    ghost took_both = { λ first then last xs ys one other. wrote_both _ _ _ xs ys one other };
}

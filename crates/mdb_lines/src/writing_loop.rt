//! Writing all of a text.

ghost use Rattle.std.specs.Prelude.{◌≡◌, [], IfOk, MatchResult, take, length, ◌<◌, ◌≤◌};
ghost use Rattle.mdb_base.specs.Outside.{HasCause, Took};
ghost use Rattle.mdb_lines.specs.Loops.{TookFront};

use mdb_base::{Failed, Sink};

// Writes one byte or more of a piece, or fails.
fn write_some<K: Sink>(sink: &mut K, piece: &[u8]) -> Result<usize, Failed>
    requires { 0 < length piece.now }
    ensures count { IfOk result (λ n. (0 < n) × (n ≤ length piece.now)) }
    ensures bytes { MatchResult result (λ n. Took (K.held sink.old) (K.held sink.new) (take n piece.now)) (λ _. Took (K.held sink.old) (K.held sink.new) []) }
    ensures cause { HasCause (K.faults sink.old) (K.faults sink.new) result }
{
    match sink.write(piece) {
        Err(_) => Err(Failed),
        Ok(0) => Err(Failed),
        Ok(count) => Ok(count),
    }
}

/// Writes all the bytes, or fails behind the first of them.
pub fn write_all<K: Sink>(sink: &mut K, bytes: &[u8]) -> Result<(), Failed>
    ensures bytes { MatchResult result (λ _. Took (K.held sink.old) (K.held sink.new) bytes.now) (λ _. TookFront (K.held sink.old) (K.held sink.new) bytes.now) }
    ensures cause { HasCause (K.faults sink.old) (K.faults sink.new) result }
{
    let mut done = 0;
    while done < bytes.len() {
        let (_front, piece) = bytes.split_at(done);
        match write_some(sink, piece) {
            Err(_) => return Err(Failed),
            Ok(count) => done += count,
        }
    }
    Ok(())
}

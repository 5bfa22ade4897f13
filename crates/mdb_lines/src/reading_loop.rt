//! Reading an input to its end, and cutting it into lines.

ghost use Rattle.std.specs.Prelude.{◌≡◌, IfOk, IfErr, length, ◌<◌, position, ◌==◌};
ghost use Rattle.mdb_lines.specs.Loops.{CutsLine, ReadsAll, ReadEnds, ReadsFew};

use crate::run_error::RunError;
use mdb_base::Source;
use std::alloc::Global;

/// The most bytes that a script may have.
pub const MAX_INPUT: u32 = 131_072;

/// Reads to the end, in at most one read more than there may be bytes; each takes a byte, finds the end or fails.
/// `ReadFault` only where the source failed, `TooLong` only past `limit` bytes.
pub fn read_all<S: Source>(alloc: Global, source: &mut S, limit: u32) -> Result<Vec<u8>, RunError>
    ensures all { IfOk result (λ v. ReadsAll limit (S.left source.old) (S.left source.new) (S.faults source.old) (S.faults source.new) v.items) }
    ensures ends { IfErr result (ReadEnds limit (S.left source.old) (S.left source.new) (S.faults source.old) (S.faults source.new)) }
    ensures few { ReadsFew limit (S.left source.old) (S.left source.new) (S.calls source.old) (S.calls source.new) }
{
    let mut input = Vec::new(alloc);
    let mut buffer = [0u8; 16384];
    for _turn in 0..u64::from(limit) + 1 {
        match source.read(&mut buffer) {
            Err(_) => return Err(RunError::ReadFault),
            Ok(0) => return Ok(input),
            Ok(count) => {
                let (piece, _rest) = buffer.split_at(count);
                input.extend_from_slice(piece)?;
                if input.len() > limit as usize {
                    return Err(RunError::TooLong);
                }
            }
        }
    }
    Err(RunError::TooLong)
}

fn newline_at(rest: &[u8]) -> Option<usize>
    ensures { result ≡ position (λ b. b == 10) rest.now }
{
    rest.iter().position(|b| *b == b'\n')
}

/// The first line, without its newline, and what stands behind it. `None` where the bytes have no newline.
pub fn cut_line(rest: &[u8]) -> Option<(&[u8], &[u8])>
    requires { 0 < length rest.now }
    ensures { CutsLine rest.now result }
{
    match newline_at(rest) {
        None => None,
        Some(place) => {
            let (line, behind) = rest.split_at(place);
            let (_newline, after) = behind.split_at(1);
            Some((line, after))
        }
    }
}

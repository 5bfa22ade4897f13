//! What a program says on its sink for errors.

ghost use Rattle.std.specs.Prelude.{◌++◌, codes, decimal};
ghost use Rattle.mdb_lines.specs.Status.{Tells, message};

use crate::run_error::RunError;
use crate::writing_loop::write_all;
use mdb_base::Sink;

// Writes a text on the sink for errors, as far as it goes.
fn tell<E: Sink>(errors: &mut E, text: &[u8])
    ensures { Tells (record { held = E.held errors.old; faults = E.faults errors.old }) (record { held = E.held errors.new; faults = E.faults errors.new }) text.now }
{
    match write_all(errors, text) {
        Ok(()) => {}
        Err(_) => {}
    }
}

// Says which line is malformed.
fn tell_line<E: Sink>(errors: &mut E, number: u32)
    ensures { Tells (record { held = E.held errors.old; faults = E.faults errors.old }) (record { held = E.held errors.new; faults = E.faults errors.new }) (codes "line " ++ (decimal number ++ codes " is malformed\n")) }
{
    let mut buffer = itoa::Buffer::new();
    match write_all(errors, b"line ") {
        Err(_) => {}
        Ok(()) => match write_all(errors, buffer.format(number).as_bytes()) {
            Err(_) => {}
            Ok(()) => match write_all(errors, b" is malformed\n") {
                Err(_) => {}
                Ok(()) => {}
            },
        },
    }
}

/// Writes the text of an error on the sink for errors, as far as it goes. It takes no memory.
pub fn tell_error<E: Sink>(errors: &mut E, e: RunError)
    ensures { Tells (record { held = E.held errors.old; faults = E.faults errors.old }) (record { held = E.held errors.new; faults = E.faults errors.new }) (message e) }
{
    match e {
        RunError::OutOfMemory => tell(errors, b"out of memory\n"),
        RunError::ReadFault => tell(errors, b"read fault\n"),
        RunError::WriteFault => tell(errors, b"write fault\n"),
        RunError::Malformed(number) => tell_line(errors, number),
        RunError::TooLong => tell(errors, b"input is too long\n"),
    }
}

/// Writes a usage, or any other text, on the sink for errors, as far as it goes. It takes no memory.
pub fn tell_usage<E: Sink>(errors: &mut E, usage: &str)
    ensures { Tells (record { held = E.held errors.old; faults = E.faults errors.old }) (record { held = E.held errors.new; faults = E.faults errors.new }) usage.now }
{
    tell(errors, usage.as_bytes())
}

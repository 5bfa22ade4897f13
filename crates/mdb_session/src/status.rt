//! What a call from C answers.

ghost use Rattle.std.specs.Prelude.{◌≡◌, ◌≢◌};
ghost use Rattle.mdb_session.specs.Answers.{status_number};

use mdb_lines::LineError;

/// What a call answers.
pub type Status = u32;

/// It was done.
pub const OK: Status = 0;

/// There was no memory, and nothing was done.
pub const NO_MEMORY: Status = 1;

/// The line spells no such step, or a text or a number means nothing, and nothing was done.
pub const MALFORMED: Status = 2;

/// The text does not fit into the room for it.
pub const NO_ROOM: Status = 3;

/// The slot is closed.
pub const CLOSED: Status = 4;

/// The slot is open already, and nothing was done.
pub const OPENED: Status = 5;

/// There is no such fact, pool, server or text.
pub const NO_ENTRY: Status = 6;

/// The records of a lookup break a rule, which the text names.
pub const BAD_RECORDS: Status = 7;

/// The bytes are no document, or the document is not what is wanted, and nothing was done.
pub const BAD_DOCUMENT: Status = 8;

/// No line can spell what the last step told of, so that its entry has no text.
pub const UNSPELLED: Status = 9;

/// The status that tells of an error.
pub fn status_of(why: LineError) -> Status
    ensures number { result ≡ status_number why }
    ensures answers { result ≢ NO_MEMORY → result ≡ MALFORMED }
{
    match why {
        LineError::OutOfMemory => NO_MEMORY,
        LineError::Bad => MALFORMED,
    }
}

//! The outside: where bytes come from and where they go to.

ghost use Rattle.std.specs.Prelude.{◌≡◌, ℕ, List, OnOk, [], Option};
ghost use Rattle.std.specs.Io.{ReadsAtMost};
ghost use Rattle.std.specs.Io.KnownBytes.{ReadConsumes};
ghost use Rattle.mdb_base.specs.Outside.{HasCause, Counts, Held, Took, IsFlushed, WriteTakes, WriteCause};

/// The outside failed, and took and gave nothing.
#[derive(Clone, Copy, Debug, PartialEq, Eq)]
pub struct Failed;

/// Where bytes come from. A read gives the first of what is left, and nothing only at its end or where there is no room.
pub trait Source {
    /// What is left, where the object tells.
    ghost left: { Self → Option (List ℕ) };

    /// How often it failed. The count never falls.
    ghost faults: { Self → ℕ };

    /// How many reads were made, where the object counts them.
    ghost calls: { Self → Option ℕ };

    fn read(&mut self, into: &mut [u8]) -> Result<usize, Failed>
        ensures bound { ReadsAtMost result into.new }
        ensures bytes { ReadConsumes (left self.old) (left self.new) result into.new }
        ensures cause { HasCause (faults self.old) (faults self.new) result }
        ensures counts { Counts (calls self.old) (calls self.new) };
}

/// Where bytes go to.
pub trait Sink {
    /// What was taken and how much of it is flushed, where the object tells.
    ghost held: { Self → Option Held };

    /// How often it failed. The count never falls.
    ghost faults: { Self → ℕ };

    /// Takes the first bytes of the piece, and answers how many.
    fn write(&mut self, piece: &[u8]) -> Result<usize, Failed>
        ensures bytes { WriteTakes (held self.old) (held self.new) piece.now result }
        ensures cause { WriteCause (faults self.old) (faults self.new) piece.now result };

    fn flush(&mut self) -> Result<(), Failed>
        ensures bytes { Took (held self.old) (held self.new) [] }
        ensures flushed { OnOk result (IsFlushed (held self.new)) }
        ensures cause { HasCause (faults self.old) (faults self.new) result };
}

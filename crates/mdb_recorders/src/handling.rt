//! Those who are handed entries.

ghost use Rattle.std.specs.Prelude.{◌++◌, [], List, OnOk, OnErr};
ghost use Rattle.mdb_log.specs.declared.log.Entry.{Entry};

use mdb_log::Entry;
use std::alloc::Global;

/// Is handed the entries of a driver, oldest first.
pub trait EntryHandler {
    /// The one was handed these entries, in order, and is the other then.
    ghost took: { Self → Self → List Entry → Type 0 };

    /// Why it takes none.
    type Error: Drop;

    /// It is handed these entries. After an error it was handed none of them.
    fn handle_entries(&mut self, alloc: Global, entries: &[Entry]) -> Result<(), Self::Error>
        ensures ok { OnOk result (took self.old self.new entries.now) }
        ensures err { OnErr result (took self.old self.new []) };

    // What it is handed in two parts is handed to it.
    ghost took_both: { (first then last : Self) (xs ys : List Entry) → took first then xs → took then last ys → took first last (xs ++ ys) };
}

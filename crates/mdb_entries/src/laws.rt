//! Laws of printed entries, each by a name.

ghost use Rattle.std.specs.Prelude.{◌≡◌, ℕ, List};
ghost use Rattle.mdb_log.specs.declared.log.Entry.{Entry};
ghost use Rattle.mdb_entries.specs.declared.shown.Shown.{Shown};
ghost use Rattle.mdb_entries.specs.Shows.{Shows};
ghost use Rattle.mdb_entries.specs.Answers.{IsPlainLog, TextShows};

/// A line shows one entry at most, so a text has one reading.
pub fn lines_show_one_entry()
    ensures { (n : ℕ) (line : List ℕ) (d e : Shown) → Shows n line d → Shows n line e → d ≡ e }
{}

/// The text of a log shows its entries, where its steps may stand in a script, the numbers of its replies and facts are of their types, their addresses and errors keep the rules of the
/// grammar, and the messages of the errors are printable.
pub fn log_shows_its_entries()
    ensures { (log : List Entry) → IsPlainLog log → TextShows log }
{}

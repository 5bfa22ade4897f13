//! What the answers of a driver are.

ghost use Rattle.std.specs.Prelude.{◌≡◌, true, List, []};
ghost use Rattle.std.specs.List.{list_all};
ghost use Rattle.mdb_log.specs.declared.log.Entry.{Entry};
ghost use Rattle.mdb_lines.specs.Script.{AreAllowed};
ghost use Rattle.mdb_driver_rules.specs.Lines.{steps_of};
ghost use Rattle.mdb_laws.specs.Answers.{AreAnswers};
ghost use Rattle.mdb_entries.specs.Answers.{has_plain_answer};

/// The answers of a driver to steps that lines spell are plain, whichever seat made them: their addresses and errors keep the rules of the grammar, the messages of the errors are printable, and no number that a server gave is negative.
pub fn answers_are_plain()
    ensures { (log : List Entry) → AreAnswers [] log → AreAllowed 1 (steps_of log) → list_all has_plain_answer log ≡ true }
{}

//! What the text of a log shows.

ghost use Rattle.std.specs.Prelude.{[]};
ghost use Rattle.mdb_lines.specs.Script.{AreAllowed};
ghost use Rattle.mdb_driver_rules.specs.Lines.{steps_of};
ghost use Rattle.mdb_laws.specs.Answers.{AreAnswers};
ghost use Rattle.mdb_entries.specs.Answers.{TextShows};

use crate::types::log_types;
use mdb_log::Log;

/// The text of a log shows its entries, where each is what a driver answers to its step after those before it, whichever seat made it, and lines spell the steps. Reads the log once.
pub fn text_shows_log(log: &Log)
    ensures { AreAnswers [] log.now → AreAllowed 1 (steps_of log.now) → TextShows log.now }
{
    log_types(log);
}

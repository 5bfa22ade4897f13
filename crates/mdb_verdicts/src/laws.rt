//! Laws of verdicts on runs, each by a name.

ghost use Rattle.std.specs.Prelude.{◌≡◌, ℕ, List, length, Option};
ghost use Rattle.mdb_base.specs.Outside.{Held};
ghost use Rattle.mdb_lines.specs.LogText.{text_of};
ghost use Rattle.mdb_log.specs.declared.step.Step.{Step};
ghost use Rattle.mdb_lines.specs.Script.{AreAllowed};
ghost use Rattle.mdb_runs.specs.Runs.{Ran};
ghost use Rattle.mdb_shared_runs.specs.Scripts.{Shared};
ghost use Rattle.mdb_audit.specs.LegalText.{IsVerdict};
ghost use Rattle.mdb_audit.specs.declared.verdict.Verdict.{Verdict as Answer};
ghost use Rattle.mdb_audit.specs.declared.verdict.Verdict.TheVariants.{Legal};

use crate::moments::moments_fit;
use mdb_log::Log;
use mdb_readable::text_shows_log;

/// The text of a log that a run returned is the text of a legal log, with as many lines as the log has entries. No other verdict
/// is right, so `audit` gives this one or tells out of memory. Reads the log once.
pub fn run_logs_are_legal(log: &Log)
    ensures legal { (input : List ℕ) (held new_held : Option Held) (faults new_faults : ℕ) → Ran input log.now held new_held faults new_faults → IsVerdict (text_of log.now) (Legal (length log.now)) }
    ensures only { (input : List ℕ) (held new_held : Option Held) (faults new_faults : ℕ) → Ran input log.now held new_held faults new_faults → (answer : Answer) → IsVerdict (text_of log.now) answer → answer ≡ Legal (length log.now) }
{
    text_shows_log(log);
}

/// So is the text of a log that the parts of a shared script returned: an entry's text does not tell which part made it. Reads the log twice.
pub fn shared_logs_are_legal(log: &Log)
    ensures legal { (k : ℕ) (steps : List Step) → AreAllowed 1 steps → Shared k steps log.now → IsVerdict (text_of log.now) (Legal (length log.now)) }
    ensures only { (k : ℕ) (steps : List Step) → AreAllowed 1 steps → Shared k steps log.now → (answer : Answer) → IsVerdict (text_of log.now) answer → answer ≡ Legal (length log.now) }
{
    moments_fit(log);
    text_shows_log(log);
}

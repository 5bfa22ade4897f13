//! Laws of what is told of a request (CMAP, "Checking Out a Connection").

ghost use Rattle.std.specs.Prelude.{◌≡◌, ◌≤◌, ℕ, List, [], true};
ghost use Rattle.mdb_log.specs.declared.log.Entry.{Entry};
ghost use Rattle.mdb_log.specs.declared.step.Step.{Step};
ghost use Rattle.mdb_log.specs.Driver.{tells_outcome};
ghost use Rattle.mdb_log.specs.History.{history_of};
ghost use Rattle.mdb_log.specs.Requests.{asks_how, told};
ghost use Rattle.mdb_topology.specs.declared.topology.TopologyCore.{TopologyCore};
ghost use Rattle.mdb_driver_rules.specs.Lines.{log_of};
ghost use Rattle.mdb_topology.specs.Logging.{IsDriverOf};
ghost use Rattle.mdb_laws.specs.Answers.{IsAnswer, AreAnswers, TellsOutcome};

/// A request is told at most once that it has a connection or that it ended, whoever asks, in every log whose entries are a driver's answers.
pub fn outcomes_are_told_once()
    ensures { (log : List Entry) (r : ℕ) → AreAnswers [] log → told (history_of log) r ≤ 1 }
{}

/// A reply that says how a request stands is its outcome in the log with this entry: it waits, its connection is being established, it has one, or it ended.
pub fn replies_tell_how_requests_stand()
    ensures { (log : List Entry) (e : Entry) (r : ℕ) → IsAnswer log e → asks_how e.step.act r ≡ true → tells_outcome e.reply ≡ true → TellsOutcome log e r }
{}

/// The log of a script's steps is one of answers.
pub fn logs_of_steps_are_answered()
    ensures { (steps : List Step) → AreAnswers [] (log_of steps) }
{}

/// Each entry of a log for which a driver stands is the answer to its step after those before it, whichever seat made it.
pub fn driver_logs_are_answered()
    ensures { (w : TopologyCore) (log : List Entry) → IsDriverOf w log → AreAnswers [] log }
{}

/// In every log for which a driver stands a request is told at most once that it has a connection or that it ended, whoever asks.
pub fn drivers_tell_outcomes_once()
    ensures { (w : TopologyCore) (log : List Entry) (r : ℕ) → IsDriverOf w log → told (history_of log) r ≤ 1 }
{}

//! The search for a caller's connection meets the available ones, the last that came back first (CMAP, "Checking Out a Connection").

ghost use Rattle.std.specs.Prelude.{List};
ghost use Rattle.mdb_base.specs.declared.options.Options.{Options};
ghost use Rattle.mdb_log.specs.declared.log.Entry.{Entry};
ghost use Rattle.mdb_log.specs.declared.step.Step.{Step};
ghost use Rattle.mdb_log.specs.History.{Item, with_answer};
ghost use Rattle.mdb_topology.specs.declared.topology.TopologyCore.{TopologyCore};
ghost use Rattle.mdb_topology.specs.Logging.{IsDriverOf};
ghost use Rattle.mdb_driver_rules.specs.Answer.{answer};
ghost use Rattle.mdb_histories.specs.SoundHistory.{SoundHistory};
ghost use Rattle.mdb_laws.specs.Logs.{EachAnswer};
ghost use Rattle.mdb_laws.specs.Searches.{AnswerGrantsLast};

/// Where the history is sound with the answer, each of its grants to a caller is of the available connection that came back last, or none was available in the pool. So a new connection is made for a
/// caller only after the search has closed all that it met as stale or idle.
pub fn callers_get_the_last_returned()
    ensures { (o : Options) (h : List Item) (step : Step) → SoundHistory (with_answer step (answer o h step).reply (answer o h step).facts h) → AnswerGrantsLast o h step (answer o h step) }
{}

/// So is each grant in every log for which a driver stands, whoever made its steps.
pub fn callers_in_logs_get_the_last_returned()
    ensures { (w : TopologyCore) (log : List Entry) → IsDriverOf w log → EachAnswer AnswerGrantsLast log }
{}

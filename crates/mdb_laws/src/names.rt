//! A connection is ready once, right at the step that establishes it, and a connection that is checked out lives (CMAP, "Connection", "Checking Out a Connection", "Events").

ghost use Rattle.std.specs.Prelude.{List, []};
ghost use Rattle.mdb_log.specs.declared.log.Entry.{Entry};
ghost use Rattle.mdb_log.specs.declared.step.Step.{Step};
ghost use Rattle.mdb_log.specs.Acts.{IsDriverAct};
ghost use Rattle.mdb_log.specs.History.{Item};
ghost use Rattle.mdb_topology.specs.declared.topology.TopologyCore.{TopologyCore};
ghost use Rattle.mdb_driver_rules.specs.Answer.{answer};
ghost use Rattle.mdb_topology.specs.Logging.{IsDriverOf};
ghost use Rattle.mdb_topology.specs.Standing.{StandsFor};
ghost use Rattle.mdb_histories.specs.SoundHistory.{SoundHistory};
ghost use Rattle.mdb_laws.specs.Names.{AnswerNames, EntriesName};

/// Whatever a caller of a driver does, a ready event in its answer is the first fact and names the connection that the step establishes, and each checkout names a connection that was just granted or established and lives.
pub fn events_name_living_connections()
    ensures { (w : TopologyCore) (h : List Item) (step : Step) → StandsFor w h → IsDriverAct step.act → SoundHistory h → AnswerNames h step (answer w.options h step).facts }
{}

/// So it is in every log for which a driver stands, whoever made its steps.
pub fn events_in_logs_name_living_connections()
    ensures { (w : TopologyCore) (log : List Entry) → IsDriverOf w log → EntriesName [] log }
{}

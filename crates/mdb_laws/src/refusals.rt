//! Steps are refused exactly as the table of refusals says.

ghost use Rattle.std.specs.Prelude.{List};
ghost use Rattle.mdb_base.specs.declared.options.Options.{Options};
ghost use Rattle.mdb_log.specs.declared.log.Entry.{Entry};
ghost use Rattle.mdb_log.specs.declared.step.Step.{Step};
ghost use Rattle.mdb_log.specs.History.{Item};
ghost use Rattle.mdb_topology.specs.declared.topology.TopologyCore.{TopologyCore};
ghost use Rattle.mdb_topology.specs.Logging.{IsDriverOf};
ghost use Rattle.mdb_driver_rules.specs.Answer.{answer};
ghost use Rattle.mdb_laws.specs.Logs.{EachAnswer};
ghost use Rattle.mdb_laws.specs.Refusals.{RefusesByTable};

/// The answer to a step is a refusal exactly where a row of the table holds, with the reason of the first that does, and a refused step makes no fact: whatever the history.
pub fn steps_are_refused_by_the_table()
    ensures { (o : Options) (h : List Item) (step : Step) → RefusesByTable o h step (answer o h step) }
{}

/// So is each step in every log for which a driver stands, whoever made it.
pub fn steps_in_logs_are_refused_by_the_table()
    ensures { (w : TopologyCore) (log : List Entry) → IsDriverOf w log → EachAnswer RefusesByTable log }
{}

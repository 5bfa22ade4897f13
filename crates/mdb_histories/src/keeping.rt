//! Every log of a driver is sound: its opening begins a sound history, and each answer keeps the history so.

ghost use Rattle.std.specs.Prelude.{List, []};
ghost use Rattle.mdb_base.specs.declared.options.Options.{Options};
ghost use Rattle.mdb_log.specs.declared.step.Step.{Step};
ghost use Rattle.mdb_log.specs.Acts.{IsDriverAct};
ghost use Rattle.mdb_log.specs.declared.log.Entry.{Entry};
ghost use Rattle.mdb_log.specs.History.{Item, with_answer, history_of};
ghost use Rattle.mdb_topology.specs.declared.topology.TopologyCore.{TopologyCore};
ghost use Rattle.mdb_driver_rules.specs.Answer.{answer};
ghost use Rattle.mdb_topology.specs.Logging.{opening_step, IsDriverOf};
ghost use Rattle.mdb_topology.specs.Standing.{StandsFor};
ghost use Rattle.mdb_histories.specs.SoundHistory.{SoundHistory};

/// The opening of a driver begins a sound history.
pub fn openings_are_sound()
    ensures { (o : Options) → SoundHistory (with_answer (opening_step o) (answer o [] (opening_step o)).reply (answer o [] (opening_step o)).facts []) }
{}

/// Whatever a caller of a driver does, its answer keeps the history sound: the step may come after the items before it, and so may each fact.
pub fn answers_keep_histories_sound()
    ensures { (w : TopologyCore) (h : List Item) (step : Step) → StandsFor w h → IsDriverAct step.act → SoundHistory h → SoundHistory (with_answer step (answer w.options h step).reply (answer w.options h step).facts h) }
{}

/// Every log for which a driver stands is sound, whoever made its steps.
pub fn driver_logs_are_sound()
    ensures { (w : TopologyCore) (log : List Entry) → IsDriverOf w log → SoundHistory (history_of log) }
{}

//! Every close of a connection has a cause: one of six situations, with the first reason of its row that holds (CMAP, "Connection", "Checking In a Connection", "Checking Out a Connection", "Closing a Connection Pool").

ghost use Rattle.std.specs.Prelude.{List, []};
ghost use Rattle.mdb_log.specs.declared.log.Entry.{Entry};
ghost use Rattle.mdb_log.specs.declared.step.Step.{Step};
ghost use Rattle.mdb_log.specs.Acts.{IsDriverAct};
ghost use Rattle.mdb_log.specs.History.{Item};
ghost use Rattle.mdb_log.specs.Opening.{pool_options};
ghost use Rattle.mdb_topology.specs.declared.topology.TopologyCore.{TopologyCore};
ghost use Rattle.mdb_driver_rules.specs.Answer.{answer};
ghost use Rattle.mdb_topology.specs.Logging.{IsDriverOf};
ghost use Rattle.mdb_topology.specs.Standing.{StandsFor};
ghost use Rattle.mdb_histories.specs.SoundHistory.{SoundHistory};
ghost use Rattle.mdb_pool_laws.specs.CloseCauses.{AnswerCaused, EntriesCaused};
ghost use Rattle.mdb_pool_laws.specs.Dues.{AnswerDue, EntriesDue};

/// Whatever a caller of a driver does, each close that its answer makes in any pool has a cause, and what is checked in with a reason is closed next.
pub fn closes_have_causes()
    ensures { (w : TopologyCore) (h : List Item) (step : Step) → StandsFor w h → IsDriverAct step.act → SoundHistory h → AnswerCaused (pool_options w.options) h step (answer w.options h step).facts }
{}

/// So it is in every log for which a driver stands, whoever made its steps.
pub fn closes_in_logs_have_causes()
    ensures { (w : TopologyCore) (log : List Entry) → IsDriverOf w log → EntriesCaused (pool_options w.options) [] log }
{}

/// A step that is not refused closes what it names: the connection that failed, what comes back to a closed pool, and what is stale or idle where the pool is maintained.
pub fn steps_close_what_they_name()
    ensures { (w : TopologyCore) (h : List Item) (step : Step) → StandsFor w h → SoundHistory h → AnswerDue (pool_options w.options) h step (answer w.options h step).reply (answer w.options h step).facts }
{}

/// So does each step in every log for which a driver stands.
pub fn steps_in_logs_close_what_they_name()
    ensures { (w : TopologyCore) (log : List Entry) → IsDriverOf w log → EntriesDue (pool_options w.options) [] log }
{}

//! The search for a caller's connection meets the available ones, the last that came back first (CMAP, "Checking Out a Connection").

ghost use Rattle.std.specs.Prelude.{ℕ, List};
ghost use Rattle.mdb_base.specs.declared.address.ServerAddress.{ServerAddress};
ghost use Rattle.mdb_log.specs.declared.options.PoolOptions.{PoolOptions};
ghost use Rattle.mdb_log.specs.declared.step.Step.{Step};
ghost use Rattle.mdb_log.specs.History.{Item, with_act};
ghost use Rattle.mdb_pool_rules.specs.Answer.{answer};
ghost use Rattle.mdb_pool_laws.specs.Searches.{AllGrantLast};

/// Each grant of an answer to a caller is of the available connection that came back last, or none is available, whatever the history. So a new connection is made for a caller only after the search has
/// closed all that it met as stale or idle.
pub fn callers_get_the_last_returned()
    ensures { (p : ℕ) (a : ServerAddress) (o : PoolOptions) (h : List Item) (step : Step) → AllGrantLast p step.moment (with_act p h step) (answer p a o h step).facts }
{}

//! Laws of one pool that is stepped by itself, each by a name, over every history for which the pool stands. `closes` says why connections are closed, and `searches` which connection a caller gets.
#![tactic(auto)]

ghost use Rattle.std.specs.Prelude.{List};
ghost use Rattle.mdb_log.specs.declared.step.Step.{Step};
ghost use Rattle.mdb_log.specs.Fresh.{AllGrantFresh};
ghost use Rattle.mdb_log.specs.History.{Item, of_pool, with_act};
ghost use Rattle.mdb_log.specs.Legal.{OnePlace};
ghost use Rattle.mdb_pool_rules.specs.Answer.{answer};
ghost use Rattle.mdb_pool.specs.Core.{PoolCore};
ghost use Rattle.mdb_pool.specs.Standing.{StandsFor, StandsIn};

pub mod closes;
pub mod searches;

/// Where a pool stands for a history, as it does after each of its calls, every connection is pending, available, held by one party or at one pin as often as it is live, which is at most once (CMAP, "Connection").
pub fn pools_have_one_place()
    ensures { (s : PoolCore) (h : List Item) → StandsFor s h → OnePlace (of_pool s.pool h) }
{}

/// No grant of an answer gives an available connection that is stale or idle (CMAP, "Checking Out a Connection").
pub fn answers_grant_fresh()
    ensures { (s : PoolCore) (h : List Item) (step : Step) → StandsFor s h → AllGrantFresh s.pool s.options step.moment (with_act s.pool h step) (answer s.pool s.address s.options h step).facts }
{}

/// A pool that stands for a history of its own stands in it, as a driver's pool does in the driver's. So what `PoolCore::is_open` and `PoolCore::has_job` answer is what that history says.
pub fn pools_stand_in_their_history()
    ensures { (s : PoolCore) (h : List Item) → StandsFor s h → StandsIn s h }
{}

//! Every close of a connection has a cause: one of six situations, with the first reason of its row that holds (CMAP, "Connection", "Checking In a Connection", "Checking Out a Connection", "Closing a Connection Pool").

ghost use Rattle.std.specs.Prelude.{List};
ghost use Rattle.mdb_log.specs.declared.step.Step.{Step};
ghost use Rattle.mdb_log.specs.History.{Item, of_pool, open_pool, with_act};
ghost use Rattle.mdb_pool_rules.specs.Answer.{answer};
ghost use Rattle.mdb_pool.specs.Core.{PoolCore};
ghost use Rattle.mdb_pool.specs.Standing.{StandsFor};
ghost use Rattle.mdb_sound.specs.Sound.{Sound};
ghost use Rattle.mdb_pool_laws.specs.CloseCauses.{AllCaused};
ghost use Rattle.mdb_pool_laws.specs.Dues.{PoolDue};

/// Whatever its step, each close that a pool's answer makes has a cause, and what is checked in with a reason is closed next. The history of a pool is sound from its making on, and each answer keeps it so.
pub fn pools_close_by_causes()
    ensures { (s : PoolCore) (h : List Item) (step : Step) → StandsFor s h → Sound (of_pool s.pool h)
        → AllCaused s.pool s.options (open_pool h) step.moment step.act (with_act s.pool h step) (answer s.pool s.address s.options h step).facts }
{}

/// A step that is not refused closes what it names: the connection that failed, what comes back to a closed pool, what is stale or idle where the pool is maintained, and what is available or pending
/// where it is closed.
pub fn pools_close_what_they_must()
    ensures { (s : PoolCore) (h : List Item) (step : Step) → StandsFor s h → Sound (of_pool s.pool h)
        → PoolDue s.pool s.options h step (answer s.pool s.address s.options h step).reply (answer s.pool s.address s.options h step).facts }
{}

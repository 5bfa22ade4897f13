//! Every pool's history is sound: that of a new one is, and each answer keeps it so.

ghost use Rattle.std.specs.Prelude.{ℕ, List};
ghost use Rattle.mdb_base.specs.declared.address.ServerAddress.{ServerAddress};
ghost use Rattle.mdb_log.specs.declared.options.PoolOptions.{PoolOptions};
ghost use Rattle.mdb_log.specs.declared.step.Step.{Step};
ghost use Rattle.mdb_log.specs.History.{Item, of_pool, opening, with_answer};
ghost use Rattle.mdb_pool.specs.Core.{PoolCore};
ghost use Rattle.mdb_pool.specs.Standing.{StandsFor};
ghost use Rattle.mdb_pool_rules.specs.Answer.{answer};
ghost use Rattle.mdb_sound.specs.Sound.{Sound};

/// The history of a pool that was just made is sound.
pub fn new_pools_are_sound()
    ensures { (p : ℕ) (a : ServerAddress) (o : PoolOptions) → Sound (of_pool p (opening p a o)) }
{}

/// Whatever the step, its answer keeps the pool's history sound: the step's own item may come after those before it, and so may each fact after those before it.
pub fn answers_keep_histories_sound()
    ensures { (s : PoolCore) (h : List Item) (step : Step) → StandsFor s h → Sound (of_pool s.pool h) → Sound (of_pool s.pool (with_answer step (answer s.pool s.address s.options h step).reply (answer s.pool s.address s.options h step).facts h)) }
{}

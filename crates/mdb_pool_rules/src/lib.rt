//! What one pool answers to a step after a history, and the laws of these definitions, whatever the history (CMAP,
//! "Connection Pool"). Nothing here knows how a pool is kept.
#![tactic(auto)]

ghost use Rattle.std.specs.Prelude.{ℕ, List};
ghost use Rattle.mdb_base.specs.declared.address.ServerAddress.{ServerAddress};
ghost use Rattle.mdb_log.specs.declared.options.PoolOptions.{PoolOptions};
ghost use Rattle.mdb_log.specs.declared.step.Step.{Step};
ghost use Rattle.mdb_log.specs.History.{Item, PoolItem, after_facts, of_pool, with_answer};
ghost use Rattle.mdb_log.specs.Legal.{AllFirstCome, NoneLeftWaiting};
ghost use Rattle.mdb_log.specs.Limits.{WithinLimits};
ghost use Rattle.mdb_pool_rules.specs.Answer.{answer};
ghost use Rattle.mdb_pool_rules.specs.Serving.{serving};

/// The answer to a step keeps a pool within its limits at every item: at most `max_connecting` connections are pending,
/// and at most the greater of the two sizes live (CMAP, "Connection Pool Options").
pub fn answers_keep_limits()
    ensures { (p : ℕ) (a : ServerAddress) (o : PoolOptions) (h : List Item) (step : Step) → WithinLimits o (of_pool p h)
        → WithinLimits o (of_pool p (with_answer step (answer p a o h step).reply (answer p a o h step).facts h)) }
{}

/// Each grant of the serving goes to the caller that waited longest (CMAP, "Checking Out a Connection").
pub fn servings_are_first_come()
    ensures { (p : ℕ) (a : ServerAddress) (o : PoolOptions) (m : ℕ) (xs : List PoolItem) → AllFirstCome p m xs (serving p a o m xs) }
{}

/// After the serving no waiting caller could be granted a connection (CMAP, "WaitQueue").
pub fn servings_leave_nobody_waiting()
    ensures { (p : ℕ) (a : ServerAddress) (o : PoolOptions) (m : ℕ) (xs : List PoolItem) → NoneLeftWaiting o (after_facts p m (serving p a o m xs) xs) }
{}

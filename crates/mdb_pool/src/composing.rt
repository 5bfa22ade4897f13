//! Laws by which a driver composes whole acts of its pools in one step.

ghost use Rattle.std.specs.Prelude.{◌≡◌, ℕ, List, Option};
ghost use Rattle.mdb_base.specs.declared.address.ServerAddress.{ServerAddress};
ghost use Rattle.mdb_base.specs.declared.error.Error.{Error};
ghost use Rattle.mdb_base.specs.declared.object_id.ObjectId.{ObjectId};
ghost use Rattle.mdb_log.specs.declared.options.PoolOptions.{PoolOptions};
ghost use Rattle.mdb_log.specs.declared.step.Step.{Step};
ghost use Rattle.mdb_log.specs.declared.step.Act.TheVariants.{Ready, Clear, Close};
ghost use Rattle.mdb_log.specs.History.{Item, PoolItem, of_pool, opening, with_answer};
ghost use Rattle.mdb_pool.specs.Core.{PoolCore};
ghost use Rattle.mdb_pool_rules.specs.Answer.{all_facts, answer};
ghost use Rattle.mdb_pool.specs.Composing.{ClearThenFailure};
ghost use Rattle.mdb_pool_rules.specs.Facts.{readied, clear_facts, close_facts};
ghost use Rattle.mdb_pool_rules.specs.Quiet.{IsQuiet};
ghost use Rattle.mdb_pool_rules.specs.Serving.{IsServed};
ghost use Rattle.mdb_pool.specs.Standing.{StandsFor};

/// A pool that is not ready has nobody queued: so it is when it is made, and after each answer. So the serving that follows a mark as ready, a clear or a
/// close makes no fact, and their facts are their own alone. A clear and then a failure by one connection tell what they would with the failure noted first.
pub fn whole_acts_compose()
    ensures opening { (p : ℕ) (a : ServerAddress) (o : PoolOptions) → IsQuiet o (of_pool p (opening p a o)) }
    ensures quiet { (s : PoolCore) (h : List Item) (step : Step) → StandsFor s h → IsQuiet s.options (of_pool s.pool h) → IsQuiet s.options (of_pool s.pool (with_answer step (answer s.pool s.address s.options h step).reply (answer s.pool s.address s.options h step).facts h)) }
    ensures ready { (p : ℕ) (a : ServerAddress) (o : PoolOptions) (m q : ℕ) (xs : List PoolItem) → IsQuiet o xs → IsServed o xs → all_facts p a o m xs xs (Ready q) ≡ readied p a o m xs }
    ensures clear { (p : ℕ) (a : ServerAddress) (o : PoolOptions) (m q : ℕ) (xs : List PoolItem) (service : Option ObjectId) (error : Error) → IsServed o xs → all_facts p a o m xs xs (Clear q service error) ≡ clear_facts p a o m xs service error }
    ensures close { (p : ℕ) (a : ServerAddress) (o : PoolOptions) (m q : ℕ) (xs : List PoolItem) → all_facts p a o m xs xs (Close q) ≡ close_facts p a o m xs }
    ensures failure { ClearThenFailure }
{}

//! What a reader of the standards asks of every log of a driver, each by a name (CMAP, "Connection", "Connection Pool", "Behaviors").

ghost use Rattle.std.specs.Prelude.{ℕ, List};
ghost use Rattle.mdb_base.specs.declared.object_id.ObjectId.{ObjectId};
ghost use Rattle.mdb_base.specs.declared.address.ServerAddress.{ServerAddress};
ghost use Rattle.mdb_base.specs.declared.error.Error.{Error};
ghost use Rattle.mdb_log.specs.declared.options.PoolOptions.{PoolOptions};
ghost use Rattle.mdb_log.specs.History.{Item, PoolItem, of_pool};
ghost use Rattle.mdb_topology.specs.declared.topology.TopologyCore.{TopologyCore};
ghost use Rattle.mdb_topology.specs.Standing.{StandsFor};
ghost use Rattle.mdb_laws.specs.HistoryLaws.{HandsBack, LivesOnce, ServesInOrder, IsCounted, NeverFall, ClearsOne, IsReadyOnce};
ghost use Rattle.mdb_histories.specs.SoundHistory.{SoundHistory};

/// Between two hand-outs of a connection, grants and takes, the first party returned it or its request ended.
pub fn connections_come_back_between_parties()
    ensures { (h : List Item) (p : ℕ) → SoundHistory h → HandsBack (of_pool p h) }
{}

/// A connection is created first, is ready at most once and closed at most once, and nothing names it after its close.
pub fn connections_live_once_in_their_pool()
    ensures { (h : List Item) (p c : ℕ) → SoundHistory h → LivesOnce (of_pool p h) c }
{}

/// A request is granted a connection at most once and ends at most once. Callers are granted theirs in the order of their requests in each pool. No party is in two pools.
pub fn requests_are_served_in_order()
    ensures { (h : List Item) → SoundHistory h → ServesInOrder h }
{}

/// Between two steps each connection has as many places and closes as creations, and the live connections of a pool are its pending, available, held and pinned ones.
pub fn connections_are_counted()
    ensures { (w : TopologyCore) (h : List Item) (p : ℕ) → StandsFor w h → SoundHistory h → IsCounted (of_pool p h) }
{}

/// Generations never fall, of no pool and of no service.
pub fn generations_only_rise()
    ensures { (h : List Item) → NeverFall h }
{}

/// A clear for one service changes no other's generation and not that of the pool as a whole, pauses nothing, and ends nobody.
pub fn service_clears_are_alone()
    ensures { (p : ℕ) (a : ServerAddress) (o : PoolOptions) (m : ℕ) (xs : List PoolItem) (s : ObjectId) (error : Error) → ClearsOne p a o m xs s error }
{}

/// Marking a ready pool ready makes no fact.
pub fn ready_pools_are_marked_once()
    ensures { (p : ℕ) (a : ServerAddress) (o : PoolOptions) (m : ℕ) (xs : List PoolItem) → IsReadyOnce p a o m xs }
{}

//! What holds of a sound history of a pool: each of its items may come after those before it (CMAP, "Connection", "Connection Pool").

ghost use Rattle.std.specs.Prelude.{ℕ, List, ◌∷◌, ◌++◌, Option};
ghost use Rattle.mdb_base.specs.declared.object_id.ObjectId.{ObjectId};
ghost use Rattle.mdb_log.specs.declared.options.PoolOptions.{PoolOptions};
ghost use Rattle.mdb_log.specs.History.{PoolItem};
ghost use Rattle.mdb_sound.specs.Sound.{Sound};
ghost use Rattle.mdb_sound.specs.Laws.{ConnectionLaws, NamingLaws, RequestLaws, PartyLaws, InOrder, GenerationLaws, ClosedForGood};

/// Connections are numbered from 1 on in the order of their creation. Each is created once, is established or fails at most once, is closed at most once, and lives from its creation to its close.
/// One that is pending, available or pinned lives.
pub fn connections_live_once()
    ensures { (xs : List PoolItem) (c : ℕ) → Sound xs → ConnectionLaws xs c }
{}

/// An item that names a connection creates it, or the connection lives then: no item names one before its creation or after its close.
pub fn items_name_living_connections()
    ensures { (xs : List PoolItem) (x : PoolItem) (c : ℕ) → Sound (x ∷ xs) → NamingLaws xs x c }
{}

/// A request is made once, is granted a connection at most once and ends at most once. It is queued until one of these.
pub fn requests_are_served_once()
    ensures { (xs : List PoolItem) (r : ℕ) → Sound xs → RequestLaws xs r }
{}

/// No two parties have one connection, and no party has two.
pub fn connections_have_one_party()
    ensures { (xs : List PoolItem) (r c : ℕ) → Sound xs → PartyLaws xs r c }
{}

/// First come, first served: callers are granted their connections in the order of their requests.
pub fn callers_are_served_in_order()
    ensures { (xs : List PoolItem) → Sound xs → InOrder xs }
{}

/// Generations never fall, and a clear for one service leaves those of the others. They rise by their own clears, by one each.
pub fn generations_never_fall()
    ensures { (xs : List PoolItem) (s : Option ObjectId) → GenerationLaws xs s }
{}

/// A pool that was closed stays closed. It has no pending and no available connection, and no request is queued.
pub fn closed_pools_stay_closed()
    ensures { (o : PoolOptions) (xs : List PoolItem) → Sound xs → ClosedForGood o xs }
{}

/// A history is sound at every moment before, so that each law holds then too.
pub fn earlier_histories_are_sound()
    ensures { (later xs : List PoolItem) → Sound (later ++ xs) → Sound xs }
{}

//! What the logs of drivers keep from their first entry to their last.

ghost use Rattle.std.specs.Prelude.{List};
ghost use Rattle.mdb_log.specs.declared.log.Entry.{Entry};
ghost use Rattle.mdb_topology.specs.declared.topology.TopologyCore.{TopologyCore};
ghost use Rattle.mdb_log.specs.Beside.{KeepsLimits, GrantsAllFresh};
ghost use Rattle.mdb_topology.specs.Logging.{IsDriverOf};
ghost use Rattle.mdb_laws.specs.Logs.{TellsAllCauses};

/// In every log for which a driver stands each entry that was not refused, the opening too, says of whole pools what its step causes, no less and no more; a refused entry makes no fact. After each
/// entry a pool is open exactly where a server is known. An error of an operation that concerns its server no more changes nothing, and a connection that failed with such an error says nothing of the
/// server (SDAM, "Connection Pool Management", "Error handling pseudocode").
pub fn logs_tell_causes()
    ensures { (w : TopologyCore) (log : List Entry) → IsDriverOf w log → TellsAllCauses log }
{}

/// In every log for which a driver stands each pool is within its limits after every item: at most `max_connecting` connections are pending, and at most `max_pool_size` live, or `min_pool_size`
/// where that is more (CMAP, "Connection Pool Options").
pub fn logs_keep_limits()
    ensures { (w : TopologyCore) (log : List Entry) → IsDriverOf w log → KeepsLimits log }
{}

/// In every log for which a driver stands no grant gives an available connection that is stale or idle (CMAP, "Checking Out a Connection").
pub fn logs_grant_fresh()
    ensures { (w : TopologyCore) (log : List Entry) → IsDriverOf w log → GrantsAllFresh log }
{}

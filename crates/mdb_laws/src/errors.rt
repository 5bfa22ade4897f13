//! What late errors leave as it was (SDAM, "Error handling pseudocode", "Why is stale error handling needed").

ghost use Rattle.std.specs.Prelude.{◌≡◌, List, None, true};
ghost use Rattle.mdb_log.specs.declared.step.Step.{Step};
ghost use Rattle.mdb_log.specs.History.{Item};
ghost use Rattle.mdb_topology.specs.declared.topology.TopologyCore.{TopologyCore};
ghost use Rattle.mdb_driver_rules.specs.Refusal.{refusal};
ghost use Rattle.mdb_topology.specs.Standing.{StandsFor};
ghost use Rattle.mdb_laws.specs.Alike.{IsWithoutEffect};
ghost use Rattle.mdb_laws.specs.Stale.{is_stale_error, is_stale_failure, SparesServer};

/// An error of an operation concerns its server no more where it is of an incompatible server, where the pool of its connection is not the one that is open at the address, where its version is
/// no more recent than the known one, or where its connection is of an older generation than its pool. Such a step answers `Changed(false)` and makes no fact. Every query over pools,
/// connections, requests, servers, monitors and watchers has the value that it had before it; only the history is longer by the step, and the last moment is its moment.
pub fn stale_error_changes_no_query()
    ensures { (w : TopologyCore) (h : List Item) (step : Step) → StandsFor w h → refusal w.options h step ≡ None → is_stale_error w.options h step ≡ true → IsWithoutEffect w.options h step }
{}

/// A connection that could not be established, where its error concerns the server no more, ends alone, and with it the request that it was for: what is known of the servers stays, no pool is
/// marked ready, cleared or closed, and no monitor is asked.
pub fn stale_failure_spares_the_server()
    ensures { (w : TopologyCore) (h : List Item) (step : Step) → StandsFor w h → refusal w.options h step ≡ None → is_stale_failure w.options h step ≡ true → SparesServer w.options h step }
{}

//! What becomes of the pools of a driver, and by what (SDAM, "Connection Pool Management", "Error handling pseudocode").

ghost use Rattle.std.specs.Prelude.{◌≡◌, List, None};
ghost use Rattle.mdb_log.specs.declared.step.Step.{Step};
ghost use Rattle.mdb_log.specs.Acts.{IsDriverAct};
ghost use Rattle.mdb_log.specs.History.{Item};
ghost use Rattle.mdb_topology.specs.declared.topology.TopologyCore.{TopologyCore};
ghost use Rattle.mdb_driver_rules.specs.Refusal.{refusal};
ghost use Rattle.mdb_topology.specs.Standing.{StandsFor};
ghost use Rattle.mdb_laws.specs.Causes.{HasCauses};

/// What the facts of an accepted step say of whole pools has a cause, each cause has its facts, and they come in this order. The open pool of a server that changed is marked ready, where the
/// server's new type says so and the pool is not ready. The open pool of a server that went is closed. A pool with the next number is opened and created for a server that came. The pool of an
/// error is cleared, as a whole or for a service, as the error's row says; a clear as a whole is told where the pool was ready. Nothing else is said of a whole pool. After the step a pool is
/// open exactly where a server is known, and so at no address of a server that went; and a generation is greater by the clears of that pool and service alone.
pub fn pools_change_by_their_causes_alone()
    ensures { (w : TopologyCore) (h : List Item) (step : Step) → StandsFor w h → IsDriverAct step.act → refusal w.options h step ≡ None → HasCauses w.options h step }
{}

//! Who waits over a driver behind shares, and for what.

ghost use Rattle.std.specs.Prelude.{◌≡◌, true, List, ℕ};
ghost use Rattle.mdb_log.specs.declared.log.Entry.{Entry};
ghost use Rattle.mdb_log.specs.History.{history_of};
ghost use Rattle.mdb_log.specs.Opening.{pool_options};
ghost use Rattle.mdb_log.specs.State.{max_size};
ghost use Rattle.mdb_proxies.specs.Shares.{are_shares};
ghost use Rattle.mdb_proxies.specs.View.{ProxyView};
ghost use Rattle.mdb_proxies.specs.declared.step.ProxyStep.{ProxyStep};
ghost use Rattle.mdb_topology.specs.declared.topology.TopologyCore.{TopologyCore};
ghost use Rattle.mdb_topology.specs.Logging.{IsDriverOf};
ghost use Rattle.mdb_proxy_laws.specs.Reaching.{Reaches, begun};
ghost use Rattle.mdb_proxy_laws.specs.Waiting.{WaitsForNone};

/// After every list of steps of a proxy over a driver that was just opened: where a ready pool has a waiting caller, as many of its connections are pending as may be established at once, or its ids are
/// used up. So nobody waits because others hold connections.
pub fn nobody_waits_for_others()
    ensures { (shares : List ℕ) (first : Entry) (v : ProxyView) (steps : List ProxyStep) (w : TopologyCore) → are_shares shares (max_size (pool_options w.options)) ≡ true → Reaches (begun shares first) v steps → IsDriverOf w v.log → WaitsForNone (pool_options w.options) (history_of v.log) }
{}

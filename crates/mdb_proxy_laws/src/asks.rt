//! What holds of the asks of a proxy after every list of steps, over any core.

ghost use Rattle.std.specs.Prelude.{List, ℕ};
ghost use Rattle.mdb_log.specs.declared.log.Entry.{Entry};
ghost use Rattle.mdb_proxies.specs.declared.step.ProxyStep.{ProxyStep};
ghost use Rattle.mdb_proxies.specs.View.{ProxyView};
ghost use Rattle.mdb_proxy_laws.specs.Reaching.{Reaches, begun};
ghost use Rattle.mdb_proxy_laws.specs.Asks.{AreAsked};
ghost use Rattle.mdb_proxy_laws.specs.Once.{AreOnce};

/// Every entry behind the first is one that the proxy makes: the request of an ask, the first since it, or a collect, a return, or an act that is passed.
pub fn entries_are_asked()
    ensures { (shares : List ℕ) (first : Entry) (v : ProxyView) (steps : List ProxyStep) → Reaches (begun shares first) v steps → AreAsked first v }
{}

/// Each ask is handed on by at most one entry since it was made.
pub fn asks_are_handed_on_once()
    ensures { (shares : List ℕ) (first : Entry) (v : ProxyView) (steps : List ProxyStep) → Reaches (begun shares first) v steps → AreOnce v.log v.asks }
{}

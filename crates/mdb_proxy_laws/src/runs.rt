//! Who waits at the end of a run of a proxy script, and for what.

ghost use Rattle.std.specs.Prelude.{ℕ, List, Option};
ghost use Rattle.mdb_base.specs.Outside.{Held};
ghost use Rattle.mdb_log.specs.declared.log.Entry.{Entry};
ghost use Rattle.mdb_log.specs.History.{history_of};
ghost use Rattle.mdb_log.specs.Opening.{pool_options};
ghost use Rattle.mdb_proxy_runs.specs.ProxyRuns.{Played};
ghost use Rattle.mdb_proxy_laws.specs.Waiting.{WaitsForNone};

/// At the end of a run of a proxy script: where a ready pool has a waiting caller, as many of its connections are pending as may be established at once, or its ids are used up.
pub fn nobody_waits_for_others_in_runs()
    ensures { (shares input : List ℕ) (log : List Entry) (held new_held : Option Held) (faults new_faults : ℕ) (p : Played shares input log held new_held faults new_faults) → WaitsForNone (pool_options p.options) (history_of log) }
{}

//! Facts that no driver makes of a step, since they are not what the step causes. Each is named for the wrong driver that would make them.

ghost use Rattle.std.specs.Prelude.{◌≡◌, true, false, List, [], Some};
ghost use Rattle.std.specs.List.{list_any};
ghost use Rattle.mdb_events.specs.declared.fact.Fact.{Fact};
ghost use Rattle.mdb_log.specs.declared.reply.Reply.{Reply};
ghost use Rattle.mdb_log.specs.declared.reply.Reply.TheVariants.{Changed};
ghost use Rattle.mdb_log.specs.Own.{IsAccepted};
ghost use Rattle.mdb_log.specs.History.{history_of, of_pool, open_pool};
ghost use Rattle.mdb_log.specs.Connections.{holding as held_by};
ghost use Rattle.mdb_log.specs.State.{is_ready, state_of};
ghost use Rattle.mdb_log.specs.Opening.{pool_options};
ghost use Rattle.mdb_driver_rules.specs.Lines.{log_of, answer_after};
ghost use Rattle.mdb_laws.specs.Logs.{TellsAllCauses};
ghost use Rattle.mdb_excluded.specs.Entries.{home, lost};
ghost use Rattle.mdb_excluded.specs.Steps.{normal, alone, greets, errs, harmless, answered};
ghost use Rattle.mdb_excluded.specs.Excluded.{Excludes, makes_ready, clears};
ghost use Rattle.mdb_excluded.specs.Scripts.{begun, holding, cleared_once, reopened};

/// A server answered for the first time, and its pool is not marked ready, whatever else is told.
pub fn never_ready()
    ensures { (reply : Reply) (facts : List Fact) → IsAccepted reply → list_any (makes_ready 0) facts ≡ false → Excludes TellsAllCauses (log_of begun) (answered (greets 0 alone) reply facts) }
{}

/// Party 1 met an error that says nothing of the server, and the pool is cleared, whatever else is told. The answer is that nothing changed.
pub fn clears_always()
    ensures holds { held_by (of_pool 0 (history_of (log_of holding))) 1 ≡ Some 1 }
    ensures excluded { (reply : Reply) (facts : List Fact) → list_any (clears 0) facts ≡ true → Excludes TellsAllCauses (log_of holding) (answered (errs 1 harmless) reply facts) }
    ensures nothing { answer_after (log_of holding) (errs 1 harmless) ≡ record { reply = Changed false; facts = [] } }
{}

/// Party 1 met an error on a connection that was made before its service was cleared, and the pool is cleared again. The answer is that nothing changed.
pub fn clears_by_stale_errors()
    ensures holds { held_by (of_pool 0 (history_of (log_of cleared_once))) 1 ≡ Some 1 }
    ensures excluded { (reply : Reply) (facts : List Fact) → list_any (clears 0) facts ≡ true → Excludes TellsAllCauses (log_of cleared_once) (answered (errs 1 lost) reply facts) }
    ensures nothing { answer_after (log_of cleared_once) (errs 1 lost) ≡ record { reply = Changed false; facts = [] } }
{}

/// Party 1 met such an error, and is told that something changed, though nothing is told besides.
pub fn late_errors_count()
    ensures { Excludes TellsAllCauses (log_of cleared_once) (answered (errs 1 lost) (Changed true) []) }
{}

/// Party 1 met an error on a connection of a pool that was closed, and the pool that is open at the address since is cleared. The answer is that nothing changed.
pub fn old_pool_clears_new()
    ensures holds { held_by (of_pool 0 (history_of (log_of reopened))) 1 ≡ Some 1 }
    ensures open_now { open_pool (history_of (log_of reopened)) home ≡ Some 2 }
    ensures ready { state_of (pool_options normal) (of_pool 2 (history_of (log_of reopened))) ≡ is_ready }
    ensures excluded { (reply : Reply) (facts : List Fact) → list_any (clears 2) facts ≡ true → Excludes TellsAllCauses (log_of reopened) (answered (errs 1 lost) reply facts) }
    ensures nothing { answer_after (log_of reopened) (errs 1 lost) ≡ record { reply = Changed false; facts = [] } }
{}

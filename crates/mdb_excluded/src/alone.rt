//! What a pool that is stepped by itself doesn't answer. Each is named for the wrong pool that would answer so.

ghost use Rattle.std.specs.Prelude.{◌≡◌, [], ◌∷◌, Some};
ghost use Rattle.mdb_events.specs.declared.reasons.ConnectionClosedReason.{ConnectionClosedReason};
ghost use Rattle.mdb_log.specs.History.{of_pool, open_pool, with_act};
ghost use Rattle.mdb_log.specs.Connections.{holding};
ghost use Rattle.mdb_pool_rules.specs.Answer.{answer};
ghost use Rattle.mdb_pool_laws.specs.CloseCauses.{AllCaused};
ghost use Rattle.mdb_excluded.specs.Entries.{home, checked_in, closed};
ghost use Rattle.mdb_excluded.specs.Alone.{balanced, held, given_back};

/// Party 1 returns connection 1 after use without an error, and it is closed: whatever reason is given. The answer is that it is checked in.
pub fn pool_closes_clean_return()
    ensures holds { holding (of_pool 0 held) 1 ≡ Some 1 }
    ensures excluded { (why : ConnectionClosedReason) → ¬ (AllCaused 0 balanced (open_pool held) 0 given_back.act (with_act 0 held given_back) (checked_in 1 ∷ closed 1 why ∷ [])) }
    ensures checked_in { (answer 0 home balanced held given_back).facts ≡ checked_in 1 ∷ [] }
{}

//! Laws of runs. The functions do nothing; their clauses are the laws. Each is over every list of events, so replies may be delivered late,
//! twice, out of order or never. A run of `run_fleet` that ended well hands out that a driver stood for its log throughout.

ghost use Rattle.std.specs.Prelude.{◌≡◌, ◌<◌, ◌≤◌, ◌++◌, ◌^◌, ℕ, List, length, pos, true, option_map};
ghost use Rattle.std.specs.List.{list_all};
ghost use Rattle.mdb_describe.specs.Servers.{addresses_of, in_order, is_listed};
ghost use Rattle.mdb_fleets.specs.MemberReplies.{addresses_of as members_of, election_id as id_of};
ghost use Rattle.mdb_failover.specs.Elections.{top, IsAtMost};
ghost use Rattle.mdb_failover.specs.Followed.{Each, LeadsIfPrimary, AtMostOnePrimary};
ghost use Rattle.mdb_fleet_runs.specs.declared.event.Event.{Event};
ghost use Rattle.mdb_fleet_runs.specs.FleetRuns.{StoodEach};
ghost use Rattle.mdb_fleet_laws.specs.Failover.{winners, pairs, described, FailsOver, IsLatest};

/// After the events of a run the description follows the replies that were applied: the members and nobody else are described, and primary
/// and maxima are those of the greatest pair.
pub fn runs_fail_over()
    ensures { (n : ℕ) (events : List Event) → 1 ≤ n → n ≤ 50 → length events < 2 ^ 64 → StoodEach n events → FailsOver n events }
{}

/// All members are described, and nobody else.
pub fn all_members_are_described()
    ensures known { (n : ℕ) (events : List Event) → 1 ≤ n → n ≤ 50 → length events < 2 ^ 64 → StoodEach n events → list_all (is_listed (addresses_of (described n events).servers)) (members_of n) ≡ true }
    ensures only { (n : ℕ) (events : List Event) → 1 ≤ n → n ≤ 50 → length events < 2 ^ 64 → StoodEach n events → list_all (is_listed (members_of n)) (addresses_of (described n events).servers) ≡ true }
    ensures ordered { (n : ℕ) (events : List Event) → 1 ≤ n → n ≤ 50 → length events < 2 ^ 64 → StoodEach n events → in_order (described n events).servers ≡ true }
{}

/// At most one member is described as the primary.
pub fn at_most_one_is_described_as_primary()
    ensures { (n : ℕ) (events : List Event) → 1 ≤ n → n ≤ 50 → length events < 2 ^ 64 → StoodEach n events → AtMostOnePrimary (described n events).servers }
{}

/// The pair of a described primary is the greatest that was applied, and it is the member that won that election.
pub fn primaries_lead_by_the_greatest_pair()
    ensures { (n : ℕ) (events : List Event) → 1 ≤ n → n ≤ 50 → length events < 2 ^ 64 → StoodEach n events → Each (LeadsIfPrimary (winners n events) (top (pairs n events))) (described n events).servers }
{}

/// The maxima are the parts of the greatest pair, and absent where no reply of a primary was applied.
pub fn maxima_are_the_greatest_pair()
    ensures election { (n : ℕ) (events : List Event) → 1 ≤ n → n ≤ 50 → length events < 2 ^ 64 → StoodEach n events → (described n events).max_election_id ≡ option_map (λ t. id_of t.election) (top (pairs n events)) }
    ensures version { (n : ℕ) (events : List Event) → 1 ≤ n → n ≤ 50 → length events < 2 ^ 64 → StoodEach n events → (described n events).max_set_version ≡ option_map (λ t. pos t.version) (top (pairs n events)) }
{}

/// A reply of an earlier election never makes its sender the described primary once a later election's reply was applied: a described primary
/// is of an election after which none was applied.
pub fn earlier_elections_make_no_primary()
    ensures { (n : ℕ) (events : List Event) → 1 ≤ n → n ≤ 50 → length events < 2 ^ 64 → StoodEach n events → Each (IsLatest (pairs n events)) (described n events).servers }
{}

/// The greatest pair never falls in the order of pairs, whatever comes; its set version alone may.
pub fn the_greatest_pair_of_a_run_never_falls()
    ensures { (n : ℕ) (before later : List Event) → IsAtMost (top (pairs n before)) (top (pairs n (before ++ later))) }
{}

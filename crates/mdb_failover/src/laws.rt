//! Laws of failover. The functions do nothing; their clauses are the laws.

ghost use Rattle.std.specs.Prelude.{◌≡◌, ◌<◌, ◌≤◌, ◌++◌, ◌^◌, ℕ, List, [], Some, None, true, false, codes, nat_lt};
ghost use Rattle.mdb_base.specs.declared.address.ServerAddress.{ServerAddress as AddressRecord};
ghost use Rattle.mdb_base.specs.declared.error.Error.{Error as ErrorRecord};
ghost use Rattle.mdb_base.specs.declared.options.Options.{Options as OptionsRecord};
ghost use Rattle.mdb_describe.specs.declared.topology.TopologyDescription.{TopologyDescription as Description};
ghost use Rattle.mdb_describe.specs.Descriptions.{failed, from_reply};
ghost use Rattle.mdb_describe.specs.Topology.{opened};
ghost use Rattle.mdb_describe.specs.Update.{id_is_below, is_new, updated};
ghost use Rattle.mdb_fleets.specs.declared.member.Member.{Member as MemberRecord};
ghost use Rattle.mdb_fleets.specs.MemberReplies.{address_of, addresses_of, election_id, reply_of};
ghost use Rattle.mdb_hello.specs.declared.response.HelloReply.{HelloReply as ReplyRecord};
ghost use Rattle.mdb_failover.specs.Elections.{Pair, top, IsAtMost, AllUpTo};
ghost use Rattle.mdb_failover.specs.Followed.{Follows, IsHonest, with_pair, AtMostOnePrimary};

/// Ids of elections are in the order of the elections.
pub fn ids_are_in_order()
    ensures { (e f : ℕ) → e < 2 ^ 64 → f < 2 ^ 64 → id_is_below (election_id e) (election_id f) ≡ nat_lt e f }
{}

/// A driver that is opened with all members as seeds, by the name of their set, describes exactly them.
pub fn openings_follow()
    ensures { (n : ℕ) (o : OptionsRecord) → o.seeds ≡ addresses_of n → o.set_name ≡ Some (codes "rs") → o.direct ≡ false → o.load_balanced ≡ false → Follows n [] [] (opened o) }
{}

/// An update by a member's reply that is not older than what is known of the member keeps a description that follows the replica
/// set, whatever was delivered before, and how often.
pub fn replies_are_followed()
    ensures { (n : ℕ) (winners : List ℕ) (pairs : List Pair) (d : Description) → Follows n winners pairs d → n ≤ 50
        → (k : ℕ) (m : MemberRecord) (r : ReplyRecord) (rtt at : ℕ) → k < n → IsHonest winners k m → r.command_response ≡ reply_of n k m
        → is_new d (from_reply (address_of k) r rtt at) ≡ true → Follows n winners (with_pair pairs m) (updated d (from_reply (address_of k) r rtt at)) }
{}

/// So does a hello that is lost; no greatest pair changes by it.
pub fn losses_are_followed()
    ensures { (n : ℕ) (winners : List ℕ) (pairs : List Pair) (d : Description) → Follows n winners pairs d → (a : AddressRecord) (e : ErrorRecord) → e.topology_version ≡ None → Follows n winners pairs (updated d (failed a e)) }
{}

/// At most one server of a description that follows a replica set is a primary.
pub fn at_most_one_is_primary()
    ensures { (n : ℕ) (winners : List ℕ) (pairs : List Pair) (d : Description) → Follows n winners pairs d → AtMostOnePrimary d.servers }
{}

/// The greatest pair never falls in the order of pairs; its set version alone may.
pub fn the_greatest_pair_never_falls()
    ensures { (before later : List Pair) → IsAtMost (top before) (top (before ++ later)) }
{}

/// No applied pair is above the greatest, so no applied reply names an election after that of the greatest.
pub fn no_pair_is_above_the_greatest()
    ensures { (pairs : List Pair) (t : Pair) → top pairs ≡ Some t → AllUpTo t pairs }
{}

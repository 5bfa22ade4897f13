//! What happens to the members of a made-up replica set, which their caller keeps.

ghost use Rattle.std.specs.Prelude.{◌≡◌, ◌≢◌, ◌≤◌, ◌<◌, ◌-◌, ◌^◌, ◌&&◌, ℕ, length, nat_lt, false, true};
ghost use Rattle.mdb_fleets.specs.Members.{is_primary};
ghost use Rattle.mdb_fleets.specs.ReplicaSet.{new_set, member_at as known_at, elected, demoted, reconfigured_at};
ghost use Rattle.mdb_session.specs.Facts.{flag_number};
ghost use Rattle.mdb_fleet_session.specs.Fleets.{are_members, set_of};

use crate::member_numbers::{MemberNumbers, are_members, greatest_version, member_at, put};
use mdb_fleets::Member;
use mdb_session::{MALFORMED, NO_ENTRY, OK, Status};

// A member at the start: a secondary of the first configuration.
const NEW: Member = Member {
    set_version: 1,
    election: None,
    counter: 0,
};

fn flag_number(flag: bool) -> u32
    ensures { result ≡ flag_number flag }
{
    if flag { 1 } else { 0 }
}

/// Whether all of them can change once more, and the member is one of them.
pub(crate) fn find(members: &[MemberNumbers], member: u32) -> Status
    ensures ok { result ≡ OK → (are_members members.now ≡ true) × (member < length members.now) }
    ensures malformed { result ≡ MALFORMED → are_members members.now ≡ false }
    ensures none { result ≡ NO_ENTRY → length members.now ≤ member }
    ensures answers { result ≢ OK → result ≢ NO_ENTRY → result ≡ MALFORMED }
{
    if !are_members(members) {
        return MALFORMED;
    }
    if member as usize >= members.len() {
        return NO_ENTRY;
    }
    OK
}

/// Makes all of them secondaries with set version 1. No election was held.
pub fn begin(members: &mut [MemberNumbers], elections: &mut u64) -> Status
    ensures ok { result ≡ OK → set_of members.new elections.new ≡ new_set (length members.old) }
    ensures malformed { result ≡ MALFORMED → 1 ≤ length members.old → length members.old ≤ 50 → ⊥ }
    ensures other { result ≢ OK → (members.new ≡ members.old) × (elections.new ≡ elections.old) }
    ensures answers { result ≢ OK → result ≡ MALFORMED }
{
    if members.is_empty() || members.len() > 50 {
        return MALFORMED;
    }
    members.fill(MemberNumbers::of(NEW));
    *elections = 0;
    OK
}

/// The next election, counted from 1, is this member's: it becomes primary, with the greatest set version of all. The others stay as they are.
pub fn elect(members: &mut [MemberNumbers], elections: &mut u64, member: u32) -> Status
    ensures ok { result ≡ OK → set_of members.new elections.new ≡ elected (set_of members.old elections.old) member }
    ensures malformed { result ≡ MALFORMED → (are_members members.old && nat_lt elections.old (2 ^ 64 - 1)) ≡ false }
    ensures none { result ≡ NO_ENTRY → length members.old ≤ member }
    ensures other { result ≢ OK → (members.new ≡ members.old) × (elections.new ≡ elections.old) }
    ensures answers { result ≢ OK → result ≢ NO_ENTRY → result ≡ MALFORMED }
{
    let found = find(members, member);
    if found != OK {
        return found;
    }
    if *elections == u64::MAX {
        return MALFORMED;
    }
    let version = greatest_version(members);
    let known = member_at(members, member);
    *elections += 1;
    put(members, member, known.won(*elections, version));
    OK
}

/// The member becomes a secondary. `changed` is 0 exactly where it is one; then nothing changes.
pub fn step_down(members: &mut [MemberNumbers], member: u32, changed: &mut u32) -> Status
    ensures ok { result ≡ OK → (elections : ℕ) → set_of members.new elections ≡ demoted (set_of members.old elections) member }
    ensures told { result ≡ OK → changed.new ≡ flag_number (is_primary (known_at (set_of members.old 0) member)) }
    ensures malformed { result ≡ MALFORMED → are_members members.old ≡ false }
    ensures none { result ≡ NO_ENTRY → length members.old ≤ member }
    ensures other { result ≢ OK → (members.new ≡ members.old) × (changed.new ≡ changed.old) }
    ensures answers { result ≢ OK → result ≢ NO_ENTRY → result ≡ MALFORMED }
{
    let found = find(members, member);
    if found != OK {
        return found;
    }
    let known = member_at(members, member);
    *changed = flag_number(known.is_primary());
    if known.is_primary() {
        put(members, member, known.stepped_down());
    }
    OK
}

/// The set version of the member rises by one. `changed` is 0 exactly where it is a secondary; then nothing changes.
pub fn reconfigure(members: &mut [MemberNumbers], member: u32, changed: &mut u32) -> Status
    ensures ok { result ≡ OK → (elections : ℕ) → set_of members.new elections ≡ reconfigured_at (set_of members.old elections) member }
    ensures told { result ≡ OK → changed.new ≡ flag_number (is_primary (known_at (set_of members.old 0) member)) }
    ensures malformed { result ≡ MALFORMED → are_members members.old ≡ false }
    ensures none { result ≡ NO_ENTRY → length members.old ≤ member }
    ensures other { result ≢ OK → (members.new ≡ members.old) × (changed.new ≡ changed.old) }
    ensures answers { result ≢ OK → result ≢ NO_ENTRY → result ≡ MALFORMED }
{
    let found = find(members, member);
    if found != OK {
        return found;
    }
    let known = member_at(members, member);
    *changed = flag_number(known.is_primary());
    if known.is_primary() {
        put(members, member, known.reconfigured());
    }
    OK
}

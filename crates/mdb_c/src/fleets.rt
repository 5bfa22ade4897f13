//! A made-up replica set, for tests of failover: its members are numbers that the caller keeps, and so are the replies that it asked for.

ghost use Rattle.std.specs.Prelude.{◌≡◌, ◌≢◌, ◌≤◌, ◌-◌, ◌^◌, ◌&&◌, ℕ, length, nat_lt, false};
ghost use Rattle.mdb_fleets.specs.Members.{is_primary};
ghost use Rattle.mdb_fleets.specs.ReplicaSet.{new_set, member_at, elected, demoted, reconfigured_at, reply_now};
ghost use Rattle.mdb_replies.specs.ReplyParts.{fields_text};
ghost use Rattle.mdb_session.specs.Facts.{flag_number};
ghost use Rattle.mdb_fleet_session.specs.Fleets.{are_members, set_of};
ghost use Rattle.mdb_c.specs.Giving.{IsGiven, LacksRoom};

use crate::given::give;
use mdb_fleet_session::{MemberNumbers, begin, elect, reconfigure, reply, step_down};
use mdb_session::{MALFORMED, NO_ENTRY, NO_MEMORY, NO_ROOM, OK, Status};
use std::alloc::Global;

/// Makes all of them secondaries with set version 1. No election was held.
#[unsafe(no_mangle)]
pub extern "C" fn mdb_fleet_begin(members: &mut [MemberNumbers], elections: &mut u64) -> Status
    ensures ok { result ≡ OK → set_of members.new elections.new ≡ new_set (length members.old) }
    ensures malformed { result ≡ MALFORMED → 1 ≤ length members.old → length members.old ≤ 50 → ⊥ }
    ensures other { result ≢ OK → (members.new ≡ members.old) × (elections.new ≡ elections.old) }
    ensures answers { result ≢ OK → result ≡ MALFORMED }
{
    begin(members, elections)
}

/// The next election, counted from 1, is this member's: it becomes primary, with the greatest set version of all. The others stay as they are.
#[unsafe(no_mangle)]
pub extern "C" fn mdb_fleet_elect(
    members: &mut [MemberNumbers],
    elections: &mut u64,
    member: u32,
) -> Status
    ensures ok { result ≡ OK → set_of members.new elections.new ≡ elected (set_of members.old elections.old) member }
    ensures malformed { result ≡ MALFORMED → (are_members members.old && nat_lt elections.old (2 ^ 64 - 1)) ≡ false }
    ensures none { result ≡ NO_ENTRY → length members.old ≤ member }
    ensures other { result ≢ OK → (members.new ≡ members.old) × (elections.new ≡ elections.old) }
    ensures answers { result ≢ OK → result ≢ NO_ENTRY → result ≡ MALFORMED }
{
    elect(members, elections, member)
}

/// The member becomes a secondary. `changed` is 0 exactly where it is one; then nothing changes.
#[unsafe(no_mangle)]
pub extern "C" fn mdb_fleet_step_down(
    members: &mut [MemberNumbers],
    member: u32,
    changed: &mut u32,
) -> Status
    ensures ok { result ≡ OK → (elections : ℕ) → set_of members.new elections ≡ demoted (set_of members.old elections) member }
    ensures told { result ≡ OK → changed.new ≡ flag_number (is_primary (member_at (set_of members.old 0) member)) }
    ensures malformed { result ≡ MALFORMED → are_members members.old ≡ false }
    ensures none { result ≡ NO_ENTRY → length members.old ≤ member }
    ensures other { result ≢ OK → (members.new ≡ members.old) × (changed.new ≡ changed.old) }
    ensures answers { result ≢ OK → result ≢ NO_ENTRY → result ≡ MALFORMED }
{
    step_down(members, member, changed)
}

/// The set version of the member rises by one. `changed` is 0 exactly where it is a secondary; then nothing changes.
#[unsafe(no_mangle)]
pub extern "C" fn mdb_fleet_reconfigure(
    members: &mut [MemberNumbers],
    member: u32,
    changed: &mut u32,
) -> Status
    ensures ok { result ≡ OK → (elections : ℕ) → set_of members.new elections ≡ reconfigured_at (set_of members.old elections) member }
    ensures told { result ≡ OK → changed.new ≡ flag_number (is_primary (member_at (set_of members.old 0) member)) }
    ensures malformed { result ≡ MALFORMED → are_members members.old ≡ false }
    ensures none { result ≡ NO_ENTRY → length members.old ≤ member }
    ensures other { result ≢ OK → (members.new ≡ members.old) × (changed.new ≡ changed.old) }
    ensures answers { result ≢ OK → result ≢ NO_ENTRY → result ≡ MALFORMED }
{
    reconfigure(members, member, changed)
}

/// Writes what the member answers to a hello now, as the fields of a line, to the beginning of `out`, and how long it is to `needed`.
#[unsafe(no_mangle)]
pub extern "C" fn mdb_fleet_reply(
    alloc: Global,
    members: &[MemberNumbers],
    member: u32,
    out: &mut [u8],
    needed: &mut usize,
) -> Status
    ensures ok { result ≡ OK → IsGiven (fields_text (reply_now (set_of members.now 0) member) false) out.old out.new needed.new }
    ensures room { result ≡ NO_ROOM → LacksRoom (fields_text (reply_now (set_of members.now 0) member) false) out.old needed.new }
    ensures malformed { result ≡ MALFORMED → are_members members.now ≡ false }
    ensures none { result ≡ NO_ENTRY → length members.now ≤ member }
    ensures other { result ≢ OK → out.new ≡ out.old }
    ensures needed { result ≢ OK → result ≢ NO_ROOM → needed.new ≡ 0 }
    ensures answers { result ≢ OK → result ≢ NO_MEMORY → result ≢ NO_ROOM → result ≢ NO_ENTRY → result ≡ MALFORMED }
{
    *needed = 0;
    match reply(alloc, members, member) {
        Ok(text) => give(&text, out, needed),
        Err(why) => why,
    }
}

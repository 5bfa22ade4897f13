//! The members of a made-up replica set as numbers.

ghost use Rattle.std.specs.Prelude.{◌≡◌, ◌<◌, ◌-◌, ◌^◌, length, map, slice_set, slice_index_or, true};
ghost use Rattle.std.specs.List.{list_all};
ghost use Rattle.mdb_fleets.specs.Members.{greatest_version, new_member};
ghost use Rattle.mdb_fleet_session.specs.Fleets.{are_members, can_change, member_of};

use mdb_fleets::Member;

// What both numbers of a member are below that can change once more: 2^31 - 1.
const LAST: u32 = 2_147_483_647;

/// What a member holds for true. All its numbers are 0 where nothing else is said.
#[repr(C)]
#[derive(Clone, Copy)]
pub struct MemberNumbers {
    /// The election by which it believes to be the primary, counted from 1.
    pub election: u64,
    /// The version of the set's configuration.
    pub set_version: u32,
    /// How often it changed, as `topologyVersion` has it.
    pub counter: u32,
    /// Not 0 where it believes to be the primary.
    pub primary: u32,
    /// Not read.
    pub unused: u32,
}

impl MemberNumbers {
    /// The numbers of a member.
    pub(crate) fn of(member: Member) -> MemberNumbers
        ensures { member_of result ≡ member }
    {
        let (election, primary) = match member.election {
            Some(election) => (election, 1),
            None => (0, 0),
        };
        MemberNumbers {
            election,
            set_version: member.set_version,
            counter: member.counter,
            primary,
            unused: 0,
        }
    }

    // The member that the numbers tell of.
    fn member(&self) -> Member
        ensures { result ≡ member_of self.now }
    {
        Member {
            set_version: self.set_version,
            election: if self.primary == 0 {
                None
            } else {
                Some(self.election)
            },
            counter: self.counter,
        }
    }

    // Whether it can change once more.
    fn can_change(&self) -> bool
        ensures { result ≡ can_change self.now }
    {
        self.counter < LAST && self.set_version < LAST
    }
}

fn all_can_change(members: &[MemberNumbers]) -> bool
    ensures { result ≡ list_all can_change members.now }
{
    members.iter().all(|m| m.can_change())
}

/// Whether they are 1 to 50, and each can change once more.
#[tactic(auto, using(crate::proofs::Numbers::counted, crate::proofs::Numbers::none, crate::proofs::Numbers::many))]
pub(crate) fn are_members(members: &[MemberNumbers]) -> bool
    ensures { result ≡ are_members members.now }
{
    if members.is_empty() || members.len() > 50 {
        return false;
    }
    all_can_change(members)
}

/// The greatest set version of all.
#[tactic(auto, using(crate::proofs::Numbers::greatest))]
pub(crate) fn greatest_version(members: &[MemberNumbers]) -> u32
    ensures { result ≡ greatest_version (map member_of members.now) }
{
    members.iter().fold(0, |v, m| v.max(m.set_version))
}

/// The member with the number.
#[tactic(auto, using(crate::proofs::Numbers::counter_small, crate::proofs::Numbers::version_small, crate::proofs::Numbers::member_there))]
pub(crate) fn member_at(members: &[MemberNumbers], number: u32) -> Member
    requires there { number < length members.now }
    requires members { are_members members.now ≡ true }
    ensures member { result ≡ slice_index_or (map member_of members.now) number new_member }
    ensures counter { result.counter < 2 ^ 31 - 1 }
    ensures set_version { result.set_version < 2 ^ 31 - 1 }
{
    members[number as usize].member()
}

/// The member with the number is as this one now.
#[tactic(auto, using(crate::proofs::Numbers::put_there))]
pub(crate) fn put(members: &mut [MemberNumbers], number: u32, member: Member)
    requires { number < length members.old }
    ensures { map member_of members.new ≡ slice_set (map member_of members.old) number member }
{
    members[number as usize] = MemberNumbers::of(member);
}

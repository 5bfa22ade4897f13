//! A member of a replica set, and a reply that it sent.

ghost use Rattle.std.specs.Prelude.{◌≡◌, IfOk};
ghost use Rattle.mdb_fleets.specs.MemberReplies.{address_of};

use mdb_base::{OutOfMemory, ServerAddress};
use mdb_hello::HelloCommandResponse;
use std::alloc::Global;

/// What a member holds for true. `election` is the number of the election by which it believes to be the primary; `counter`
/// rises with each change (SDAM, "topologyVersion").
#[derive(Clone, Copy, Debug, PartialEq, Eq)]
pub struct Member {
    pub set_version: u32,
    pub election: Option<u64>,
    pub counter: u32,
}

impl Member {
    ghost use Rattle.std.specs.Prelude.{◌<◌, ◌^◌, ◌-◌};
    ghost use Rattle.mdb_fleets.specs.Members.{is_primary, winner, stepped_down, reconfigured};

    /// It believes that it is the primary.
    pub fn is_primary(&self) -> bool
        ensures { result ≡ is_primary self.now }
    {
        self.election.is_some()
    }

    /// The member once it has won the election. `counter` is below 2^31 - 1.
    pub fn won(self, election: u64, set_version: u32) -> Member
        requires { self.counter < 2 ^ 31 - 1 }
        ensures { result ≡ winner election set_version self }
    {
        Member {
            set_version,
            election: Some(election),
            counter: self.counter + 1,
        }
    }

    /// The member once it is a secondary. `counter` is below 2^31 - 1.
    pub fn stepped_down(self) -> Member
        requires { self.counter < 2 ^ 31 - 1 }
        ensures { result ≡ stepped_down self }
    {
        Member {
            set_version: self.set_version,
            election: None,
            counter: self.counter + 1,
        }
    }

    /// The member with a set version that is greater by one. Both its numbers are below 2^31 - 1.
    pub fn reconfigured(self) -> Member
        requires counter { self.counter < 2 ^ 31 - 1 }
        requires set_version { self.set_version < 2 ^ 31 - 1 }
        ensures { result ≡ reconfigured self }
    {
        Member {
            set_version: self.set_version + 1,
            election: self.election,
            counter: self.counter + 1,
        }
    }
}

/// A reply on the wire, the number of the member that sent it, and what that member then held for true.
#[derive(Debug, Drop)]
pub struct Sent {
    pub member: u32,
    pub said: Member,
    pub response: HelloCommandResponse,
}

/// The address of the member with this number: `m0:27017` and so on.
pub fn member_address(alloc: Global, member: u32) -> Result<ServerAddress, OutOfMemory>
    ensures { IfOk result (λ address. address ≡ address_of member) }
{
    let host = format!(in alloc; "m{member}")?;
    Ok(ServerAddress::new(host, 27_017)?)
}

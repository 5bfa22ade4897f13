//! Which of the pools an act concerns.

ghost use Rattle.std.specs.Prelude.{◌≡◌, option_copied};

use crate::cores::is_open_at;
use crate::pools::Pools;
use mdb_base::ServerAddress;
use mdb_log::Act;
use mdb_pool::PoolCore;

impl Pools {
    ghost use Rattle.mdb_driver_pools.specs.Living.{living_at};
    ghost use Rattle.mdb_driver_pools.specs.Standing.{at_address, knows, IsApart, IsSingle, KnowsAll};
    ghost use Rattle.mdb_driver_pools.specs.Standing.{is_here_among};
    ghost use Rattle.mdb_driver_pools.specs.Finding.{asked_by, holder, first_job, numbered, index_of};

    /// The pool that is open at the address.
    pub fn at_address(&self, address: &ServerAddress) -> Option<usize>
        ensures { result ≡ at_address self.now.cores.items address.now }
    {
        self.cores.open_at(address)
    }

    /// The pool with the number, where something lives in it: pools stand by number.
    pub fn pool(&self, number: u32) -> Option<&PoolCore>
        ensures { option_copied result ≡ living_at self.now.cores.items number }
    {
        self.cores.get(number as usize)
    }

    /// The pool with the number is the one that is open at the address. That pool alone is looked at, since at most one is open there.
    pub fn is_here(&self, address: &ServerAddress, number: u32) -> bool
        requires single { IsSingle self.now.cores.items }
        ensures { result ≡ is_here_among self.now.cores.items address.now number }
    {
        match self.pool(number) {
            Some(pool) => is_open_at(pool, address),
            None => false,
        }
    }

    /// Some pool knows the party: it asked, or took a pinned connection.
    pub(crate) fn knows(&self, party: u32) -> bool
        requires { KnowsAll self.now }
        ensures { result ≡ knows self.now.cores.items party }
    {
        self.known.contains(party)
    }

    // The pool that is open at the address: at most one is.
    fn found_at(&self, address: &ServerAddress) -> Option<usize>
        requires { IsSingle self.now.cores.items }
        ensures { result ≡ at_address self.now.cores.items address.now }
    {
        self.cores.found_open_at(address)
    }

    // The pool in which the request is open.
    fn asked_by(&self, party: u32) -> Option<usize>
        requires { IsApart self.now.cores.items }
        ensures { result ≡ asked_by self.now.cores.items party }
    {
        self.cores.asked_by(party)
    }

    /// The pool of which the party holds a connection.
    pub fn holder(&self, party: u32) -> Option<usize>
        ensures { result ≡ holder self.now.cores.items party }
    {
        self.cores.holder(party)
    }

    // The pool of which the party holds a connection: at most one knows the party.
    fn found_holder(&self, party: u32) -> Option<usize>
        requires { IsApart self.now.cores.items }
        ensures { result ≡ holder self.now.cores.items party }
    {
        self.cores.found_holder(party)
    }

    // The pool with the least number that has a job.
    fn first_job(&self) -> Option<usize>
        ensures { result ≡ first_job self.now.cores.items }
    {
        self.cores.first_job()
    }

    /// The index of the pool with the number, where something lives in it: pools stand by number.
    pub fn numbered(&self, number: u32) -> Option<usize>
        ensures { result ≡ numbered self.now.cores.items number }
    {
        let index = number as usize;
        if self.cores.lives(index) {
            return Some(index);
        }
        None
    }

    /// The pool that the act concerns.
    pub(crate) fn index_of(&self, act: &Act) -> Option<usize>
        requires single { IsSingle self.now.cores.items }
        requires apart { IsApart self.now.cores.items }
        ensures { result ≡ index_of self.now.cores.items act.now }
    {
        match act {
            Act::Request(_, address) | Act::Warm(_, address) => self.found_at(address),
            Act::Maintain(address) | Act::Expire(address) => self.found_at(address),
            Act::Collect(request) | Act::GiveUp(request) => self.asked_by(*request),
            Act::Claim => self.first_job(),
            Act::Established(number, _, _) => self.numbered(*number),
            Act::Return(party, _) | Act::Pin(party) => self.found_holder(*party),
            Act::Replicate(number, _) => self.numbered(*number),
            Act::Take(_, number, _) => self.numbered(*number),
            Act::Unpin(number, _) => self.numbered(*number),
            _ => None,
        }
    }
}

//! Whether a clear would take the generation of a pool past its limit: told without memory, and before anything of the step is made.

ghost use Rattle.std.specs.Prelude.{◌≡◌, ◌&&◌, true, not, nat_le, is_some, slice_get, None, Some};
ghost use Rattle.mdb_describe.specs.Descriptions.{failed};
ghost use Rattle.mdb_describe.specs.Differences.{difference};
ghost use Rattle.mdb_describe.specs.Same.{same, same_error, same_kind, same_option, same_version};
ghost use Rattle.mdb_describe.specs.Update.{is_older, updated};
ghost use Rattle.mdb_pool.specs.Core.{PoolCore as Core};
ghost use Rattle.mdb_pool.specs.Now.{clears_now, exhausted_now, is_closed_now, is_spent};
ghost use Rattle.mdb_driver_pools.specs.Living.{lives_at};

use crate::topology::TopologyCore;
use mdb_base::{Error, ErrorKind, ObjectId, ServerAddress, TopologyVersion};
use mdb_describe::ServerDescription;
use mdb_driver_pools::pool_queries::{generation, is_closed};
use mdb_log::BeatenResult;
use mdb_pool::PoolCore;

// The pool is open, and was cleared so often, or for the service.
fn is_at_limit(pool: &PoolCore, limit: u64, service: Option<ObjectId>) -> bool
    ensures { result ≡ not (is_closed_now pool.now) && nat_le limit (clears_now pool.now service) }
{
    !is_closed(pool) && limit <= generation(pool, service)
}

// The one version is older than the other, of the same process.
fn is_older(version: Option<TopologyVersion>, known: Option<TopologyVersion>) -> bool
    ensures { result ≡ is_older version known }
{
    match (version, known) {
        (Some(version), Some(known)) => {
            version.process_id == known.process_id && version.counter < known.counter
        }
        _ => false,
    }
}

fn same_kind(a: ErrorKind, b: ErrorKind) -> bool
    ensures { result ≡ same_kind a b }
{
    a == b
}

fn same_version(a: Option<TopologyVersion>, b: Option<TopologyVersion>) -> bool
    ensures { result ≡ same_option same_version a b }
{
    a == b
}

fn same_error(a: &Error, b: &Error) -> bool
    ensures { result ≡ same_error a.now b.now }
{
    same_kind(a.kind, b.kind)
        && a.labels == b.labels
        && same_version(a.topology_version, b.topology_version)
        && a.message == b.message
}

// What is known of the server is that it met this very error.
fn met_already(known: &ServerDescription, error: &Error) -> bool
    ensures { result ≡ same known.now (failed known.now.address error.now) }
{
    match known.error() {
        Some(own) => {
            if known.is_available() {
                return false;
            }
            same_error(own, error)
        }
        None => false,
    }
}

impl TopologyCore {
    ghost use Rattle.mdb_topology.specs.Marking.{check_spends};
    ghost use Rattle.mdb_topology.specs.Standing.{StandsForSome};

    /// One more clear of the pool at the index, or for a service of it, would take its generation past the limit.
    pub(crate) fn is_spent(&self, index: usize, service: Option<ObjectId>) -> bool
        requires stands { StandsForSome self.now }
        requires there { lives_at self.now.pools.cores.items index ≡ true }
        ensures { (s : Core) → slice_get self.now.pools.cores.items index ≡ Some s → result ≡ exhausted_now s service }
    {
        let limit = self.options.limit_generation.unwrap_or(u64::MAX);
        is_at_limit(self.pools.cores.at(index), limit, service)
    }

    /// A clear for the service, where there is one, of the pool at the index would.
    pub(crate) fn overspends_service(&self, index: usize, service: Option<ObjectId>) -> bool
        requires stands { StandsForSome self.now }
        requires there { lives_at self.now.pools.cores.items index ≡ true }
        ensures { (s : Core) → slice_get self.now.pools.cores.items index ≡ Some s → result ≡ is_some service && exhausted_now s service }
    {
        if service.is_none() {
            return false;
        }
        self.is_spent(index, service)
    }

    // A mark of the server by the error changes something known.
    fn is_changed_by(&self, address: &ServerAddress, error: &Error) -> bool
        requires stands { StandsForSome self.now }
        ensures { result ≡ is_some (difference self.now.description.servers (updated self.now.description (failed address.now error.now)).servers) }
    {
        match self.description.server(address) {
            Some(known) => {
                if is_older(error.topology_version, known.topology_version()) {
                    return false;
                }
                !met_already(known, error)
            }
            None => false,
        }
    }

    /// A mark of the server by the error, which clears its pool at the index where something changes, would take the generation of the pool past the limit.
    pub(crate) fn overspends(
        &self,
        index: usize,
        address: &ServerAddress,
        error: &Error,
        clears: bool,
    ) -> bool
        requires stands { StandsForSome self.now }
        requires there { lives_at self.now.pools.cores.items index ≡ true }
        ensures { (s : Core) → slice_get self.now.pools.cores.items index ≡ Some s → result ≡ (is_some (difference self.now.description.servers (updated self.now.description (failed address.now error.now)).servers) && clears) && exhausted_now s None }
    {
        if !clears {
            return false;
        }
        if !self.is_spent(index, None) {
            return false;
        }
        self.is_changed_by(address, error)
    }

    /// The end of a check would, where it failed and the driver was not stopped.
    pub(crate) fn overspends_by_check(
        &self,
        index: usize,
        address: &ServerAddress,
        came: &BeatenResult,
    ) -> bool
        requires stands { StandsForSome self.now }
        requires there { lives_at self.now.pools.cores.items index ≡ true }
        ensures { (s : Core) → slice_get self.now.pools.cores.items index ≡ Some s → result ≡ check_spends self.now s address.now came.now }
    {
        let BeatenResult::Err(error) = came else {
            return false;
        };
        if self.stopped {
            return false;
        }
        self.overspends(index, address, error.get(), true)
    }
}

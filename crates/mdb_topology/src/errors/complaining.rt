//! Which errors of operations still concern their server (SDAM, "Error handling pseudocode").

ghost use Rattle.std.specs.Prelude.{◌≡◌, Some, is_some, unwrap_or, pos, int_lt, true};
ghost use Rattle.mdb_pool.specs.Now.{is_live_now, service_now};
ghost use Rattle.mdb_topology.specs.Complaining.{is_outdated, is_hard_now, service_cleared};
ghost use Rattle.mdb_driver_rules.specs.Current.{operating};
ghost use Rattle.mdb_driver_rules.specs.Errors.{case_of};

use crate::topology::TopologyCore;
use mdb_base::{Error, ObjectId, ServerAddress};
use mdb_driver_pools::pool_queries::{connection_generation, generation, wire_version};
use mdb_log::ConnectionGeneration;
use mdb_pool::PoolCore;

// The generation of a live connection is not the one that its pool has.
fn is_outdated(pool: &PoolCore, id: u32) -> bool
    ensures { is_live_now pool.now id ≡ true → result ≡ is_outdated pool.now id }
{
    match connection_generation(pool, id) {
        Some(ConnectionGeneration::Normal(own)) => own != generation(pool, None),
        Some(ConnectionGeneration::LoadBalanced(Some(own))) => {
            own.generation != generation(pool, Some(own.service_id))
        }
        Some(ConnectionGeneration::LoadBalanced(None)) => false,
        None => false,
    }
}

/// The error of an operation has a row: it changes the state of the server, or the connection is lost.
pub(crate) fn has_row(error: &Error) -> bool
    ensures { result ≡ is_some (case_of operating error.now) }
{
    error.is_state_change_error()
        || (error.is_non_timeout_network_error() && !error.contains_label("SystemOverloadedError"))
}

// The wire version is below 8, as is none.
fn is_old(wire: Option<i32>) -> bool
    ensures { result ≡ int_lt (unwrap_or wire (pos 0)) (pos 8) }
{
    match wire {
        Some(version) => version < 8,
        None => true,
    }
}

/// The server shuts down, or the wire version of the connection is below 8.
pub(crate) fn is_hard(pool: &PoolCore, id: u32, error: &Error) -> bool
    ensures { result ≡ is_hard_now pool.now id error.now }
{
    error.is_shutting_down() || is_old(wire_version(pool, id))
}

// The service of a live connection under load balancing.
fn service_at(pool: &PoolCore, id: u32) -> Option<ObjectId>
    ensures { pool.now.options.load_balanced ≡ true → is_live_now pool.now id ≡ true → result ≡ service_now pool.now id }
{
    match connection_generation(pool, id) {
        Some(own) => own.service_id(),
        None => None,
    }
}

/// The service that the error about the connection clears under load balancing.
pub(crate) fn service_cleared(pool: &PoolCore, id: u32, error: &Error) -> Option<ObjectId>
    ensures { pool.now.options.load_balanced ≡ true → is_live_now pool.now id ≡ true → result ≡ service_cleared pool.now id error.now }
{
    let hard = is_hard(pool, id, error);
    if error.is_state_change_error() && !hard {
        return None;
    }
    service_at(pool, id)
}

impl TopologyCore {
    ghost use Rattle.mdb_describe.specs.Topology.{server_at};
    ghost use Rattle.mdb_topology.specs.Complaining.{concerns_now};
    ghost use Rattle.mdb_driver_rules.specs.Current.{known_version, may_tell};
    ghost use Rattle.mdb_topology.specs.Standing.{StandsForSome};

    /// What the error tells of the server is more recent than what is known, or one of them has no version.
    pub(crate) fn may_tell(&self, address: &ServerAddress, error: &Error) -> bool
        ensures { result ≡ may_tell (known_version (server_at address.now self.now.description.servers)) error.now.topology_version }
    {
        let Some(server) = self.description.server(address) else {
            return true;
        };
        let Some(known) = server.topology_version() else {
            return true;
        };
        match error.topology_version {
            Some(version) => version.is_more_recent_than(&known),
            None => true,
        }
    }

    /// The error of an operation on the connection of the pool is current.
    pub(crate) fn is_current(&self, pool: &PoolCore, id: u32, error: &Error) -> bool
        requires stands { StandsForSome self.now }
        ensures { is_live_now pool.now id ≡ true → result ≡ concerns_now self.now pool.now id error.now }
    {
        if error.is_incompatible_server() {
            return false;
        }
        if !self.pools.is_here(pool.address(), pool.number()) {
            return false;
        }
        if !self.may_tell(pool.address(), error) {
            return false;
        }
        !is_outdated(pool, id)
    }
}

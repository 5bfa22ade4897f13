//! The updater's calls. Each is one step of the driver, and keeps that the driver stands for its log.

ghost use Rattle.std.specs.Prelude.{◌≡◌, OnOk, OnErr, IfOk, List};
ghost use Rattle.mdb_log.specs.declared.step.Act.TheVariants as act;
ghost use Rattle.mdb_log.specs.declared.checked.HelloResult.TheVariants as hello;

use crate::topology::TopologyCore;
use mdb_base::{ClusterTime, Error, Items, Moment, Nanos, OutOfMemory, ServerAddress};
use mdb_events::Boxed;
use mdb_hello::HelloCommandResponse;
use mdb_log::{Act, HelloResult, Log, Reply, Step};
use std::alloc::Global;

impl TopologyCore {
    ghost use Rattle.mdb_driver_rules.specs.Answer.{answer};
    ghost use Rattle.mdb_topology.specs.Logging.{IsDriverOf};
    ghost use Rattle.mdb_topology.specs.Standing.{StandsFor, StandsForSome, IsSame};
    ghost use Rattle.mdb_topology.specs.Stepping.{IsLogged};
    ghost use Rattle.mdb_log.specs.History.{Item};

    /// A hello of the monitor of the address was answered after the round trip; it was begun for the pool with the number (SDAM, "Updating the TopologyDescription").
    /// `Changed` says whether the description changed.
    pub fn update(
        &mut self,
        alloc: Global,
        log: &mut Log,
        seat: u32,
        moment: Moment,
        address: ServerAddress,
        pool: u32,
        rtt: Nanos,
        reply: HelloCommandResponse,
    ) -> Result<Reply, OutOfMemory>
        requires stands { StandsForSome self.old }
        ensures options { self.new.options ≡ self.old.options }
        ensures logs { OnOk result (IsLogged self.old self.new log.old log.new seat (record { moment = moment; act = act.Hello address pool (hello.Ok rtt reply) })) }
        ensures driver { IsDriverOf self.old log.old → IsDriverOf self.new log.new }
        ensures reply { IfOk result (λ told. (h : List Item) → StandsFor self.old h → told ≡ (answer self.old.options h (record { moment = moment; act = act.Hello address pool (hello.Ok rtt reply) })).reply) }
        ensures err_core { OnErr result (IsSame self.old self.new) }
        ensures err_log { OnErr result (log.new ≡ log.old) }
    {
        let held = Boxed::new(alloc, reply)?;
        let act = Act::Hello(address, pool, HelloResult::Ok(rtt, held));
        self.step(alloc, log, seat, &Step { moment, act })
    }

    /// The hello of the monitor of the address met an error; it was begun for the pool with the number (SDAM, "Network error during server check").
    /// `Changed` says whether the description changed or the pool was cleared.
    pub fn handle_monitor_error(
        &mut self,
        alloc: Global,
        log: &mut Log,
        seat: u32,
        moment: Moment,
        address: ServerAddress,
        pool: u32,
        error: Error,
    ) -> Result<Reply, OutOfMemory>
        requires stands { StandsForSome self.old }
        ensures options { self.new.options ≡ self.old.options }
        ensures logs { OnOk result (IsLogged self.old self.new log.old log.new seat (record { moment = moment; act = act.Hello address pool (hello.Err error) })) }
        ensures driver { IsDriverOf self.old log.old → IsDriverOf self.new log.new }
        ensures reply { IfOk result (λ told. (h : List Item) → StandsFor self.old h → told ≡ (answer self.old.options h (record { moment = moment; act = act.Hello address pool (hello.Err error) })).reply) }
        ensures err_core { OnErr result (IsSame self.old self.new) }
        ensures err_log { OnErr result (log.new ≡ log.old) }
    {
        let held = Boxed::new(alloc, error)?;
        let act = Act::Hello(address, pool, HelloResult::Err(held));
        self.step(alloc, log, seat, &Step { moment, act })
    }

    /// An operation on the connection that the party holds met an error (SDAM, "Error handling pseudocode"). `Changed` says whether the description
    /// changed or the pool was cleared.
    pub fn handle_application_error(
        &mut self,
        alloc: Global,
        log: &mut Log,
        seat: u32,
        moment: Moment,
        party: u32,
        error: Error,
    ) -> Result<Reply, OutOfMemory>
        requires stands { StandsForSome self.old }
        ensures options { self.new.options ≡ self.old.options }
        ensures logs { OnOk result (IsLogged self.old self.new log.old log.new seat (record { moment = moment; act = act.Error party error })) }
        ensures driver { IsDriverOf self.old log.old → IsDriverOf self.new log.new }
        ensures reply { IfOk result (λ told. (h : List Item) → StandsFor self.old h → told ≡ (answer self.old.options h (record { moment = moment; act = act.Error party error })).reply) }
        ensures err_core { OnErr result (IsSame self.old self.new) }
        ensures err_log { OnErr result (log.new ≡ log.old) }
    {
        let held = Boxed::new(alloc, error)?;
        let act = Act::Error(party, held);
        self.step(alloc, log, seat, &Step { moment, act })
    }

    /// The hosts that SRV records name now (polling SRV records for mongos discovery). They are taken in a topology of mongoses and in an unknown one, until the
    /// driver is stopped.
    pub fn sync_hosts(
        &mut self,
        alloc: Global,
        log: &mut Log,
        seat: u32,
        moment: Moment,
        hosts: Vec<ServerAddress>,
    ) -> Result<Reply, OutOfMemory>
        requires stands { StandsForSome self.old }
        ensures options { self.new.options ≡ self.old.options }
        ensures logs { OnOk result (IsLogged self.old self.new log.old log.new seat (record { moment = moment; act = act.Hosts hosts.items })) }
        ensures driver { IsDriverOf self.old log.old → IsDriverOf self.new log.new }
        ensures reply { IfOk result (λ told. (h : List Item) → StandsFor self.old h → told ≡ (answer self.old.options h (record { moment = moment; act = act.Hosts hosts.items })).reply) }
        ensures err_core { OnErr result (IsSame self.old self.new) }
        ensures err_log { OnErr result (log.new ≡ log.old) }
    {
        let act = Act::Hosts(Items::new(hosts));
        self.step(alloc, log, seat, &Step { moment, act })
    }

    /// A reply told this time of the cluster. A later one is kept, until the driver is stopped. The reply is `Done`.
    pub fn advance_cluster_time(
        &mut self,
        alloc: Global,
        log: &mut Log,
        seat: u32,
        moment: Moment,
        to: ClusterTime,
    ) -> Result<Reply, OutOfMemory>
        requires stands { StandsForSome self.old }
        ensures options { self.new.options ≡ self.old.options }
        ensures logs { OnOk result (IsLogged self.old self.new log.old log.new seat (record { moment = moment; act = act.ClusterTime to })) }
        ensures driver { IsDriverOf self.old log.old → IsDriverOf self.new log.new }
        ensures reply { IfOk result (λ told. (h : List Item) → StandsFor self.old h → told ≡ (answer self.old.options h (record { moment = moment; act = act.ClusterTime to })).reply) }
        ensures err_core { OnErr result (IsSame self.old self.new) }
        ensures err_log { OnErr result (log.new ≡ log.old) }
    {
        let act = Act::ClusterTime(to);
        self.step(alloc, log, seat, &Step { moment, act })
    }

    /// The driver is stopped: every pool is closed, and no server is known any more. A second stop answers `Done` and tells nothing.
    pub fn stop(
        &mut self,
        alloc: Global,
        log: &mut Log,
        seat: u32,
        moment: Moment,
    ) -> Result<Reply, OutOfMemory>
        requires stands { StandsForSome self.old }
        ensures options { self.new.options ≡ self.old.options }
        ensures logs { OnOk result (IsLogged self.old self.new log.old log.new seat (record { moment = moment; act = act.Stop })) }
        ensures driver { IsDriverOf self.old log.old → IsDriverOf self.new log.new }
        ensures reply { IfOk result (λ told. (h : List Item) → StandsFor self.old h → told ≡ (answer self.old.options h (record { moment = moment; act = act.Stop })).reply) }
        ensures err_core { OnErr result (IsSame self.old self.new) }
        ensures err_log { OnErr result (log.new ≡ log.old) }
    {
        let act = Act::Stop;
        self.step(alloc, log, seat, &Step { moment, act })
    }
}

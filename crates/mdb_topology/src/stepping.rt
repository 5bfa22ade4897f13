//! The steps of a driver.

ghost use Rattle.std.specs.Prelude.{◌≡◌, ◌≤◌, ◌+◌, ◌++◌, ◌&&◌, ◌||◌, ℕ, nat_le, nat_lt, OnOk, OnErr, IfOk, List, Option, is_some, unwrap_or, length, true};
ghost use Rattle.mdb_log.specs.Connections.{has, one_if};
ghost use Rattle.mdb_driver_rules.specs.Acts.{is_driver_act};

use crate::entering::refuse;
use crate::monitors::monitor_list::Monitors;
use crate::monitors::monitoring::Monitoring;
use crate::topology::TopologyCore;
use crate::transition::{Decision, Transition};
use mdb_base::{Moment, OutOfMemory};
use mdb_describe::{ServerDescription, TopologyDescription};
use mdb_driver_pools::{PoolChange, is_pool_act};
use mdb_log::{Act, HelloResult, Log, Refused, Reply, Step};
use mdb_monitor::MonitorCore;
use std::alloc::Global;

// More monitors, for which there is room.
fn push_all(monitors: &mut Monitors, more: Vec<MonitorCore>)
    requires { length monitors.old.items + length more.items ≤ monitors.old.room }
    ensures items { monitors.new.items ≡ monitors.old.items ++ more.items }
    ensures kept { (p : ℕ) → has p monitors.old.kept || (nat_le (length monitors.old.items) p && nat_lt p (length monitors.new.items)) ≡ true → has p monitors.new.kept ≡ true }
{
    for monitor in more {
        monitors.push_reserved(monitor);
    }
}

// The driver stops now, or has stopped.
fn is_stopped_then(stops: bool, stopped: bool) -> bool
    ensures { result ≡ stops || stopped }
{
    stops || stopped
}

/// The act is one of a driver: of one pool, or of the topology.
pub(crate) fn is_driver_act(act: &Act) -> bool
    ensures { result ≡ is_driver_act act.now }
{
    match act {
        Act::Hello(_, _, _) | Act::Hosts(_) | Act::ClusterTime(_) | Act::Stop => true,
        Act::Want(_) | Act::Unwant(_) | Act::Rtt(_, _, _) | Act::Error(_, _) => true,
        Act::Beat(_, _) | Act::Beaten(_, _, _, _) | Act::Failed(_, _, _, _) => true,
        _ => is_pool_act(act),
    }
}

impl TopologyCore {
    ghost use Rattle.mdb_log.specs.Acts.{IsDriverAct};
    ghost use Rattle.mdb_log.specs.History.{Item};
    ghost use Rattle.mdb_pool.specs.Core.{PoolCore};
    ghost use Rattle.mdb_driver_pools.specs.Planned.{LeadsAll, opened_by};
    ghost use Rattle.mdb_topology.specs.Standing.{StandsFor, StandsForSome, IsSame};
    ghost use Rattle.mdb_driver_rules.specs.Answer.{answer};
    ghost use Rattle.mdb_topology.specs.Checking.{monitors_after, numbers_after, watchers_after, IsPlaced};
    ghost use Rattle.mdb_driver_rules.specs.Acts.{is_pool_act};
    ghost use Rattle.mdb_driver_pools.specs.Living.{lives_at};
    ghost use Rattle.mdb_topology.specs.Logging.{IsDriverOf};
    ghost use Rattle.mdb_driver_rules.specs.Refusal.{may_want, refusal};
    ghost use Rattle.mdb_topology.specs.Stepping.{placed, with_place, BecomesOf, Follows, FollowsSome, Logs, MayWant};
    ghost use Rattle.mdb_driver_rules.specs.Acts.{is_topology_act};

    // Room for the pools and monitors that come, and the number of publications afterwards. One is added where a description takes its place.
    fn make_room(&mut self, next: &Transition, places: bool) -> Result<u64, OutOfMemory>
        ensures same { IsSame self.old self.new }
        ensures pools { OnOk result (length self.new.pools.cores.items + length next.now.monitors.items ≤ self.new.pools.cores.room) }
        ensures monitors { OnOk result (length self.new.monitors.items + length next.now.monitors.items ≤ self.new.monitors.room) }
        ensures known { OnOk result (length self.new.pools.known.spans + 1 ≤ self.new.pools.known.capacity) }
        ensures published { IfOk result (λ n. n ≡ self.old.published + one_if (places || is_some next.now.description)) }
    {
        let more = next.monitors.len();
        self.pools.known.reserve(1)?;
        self.pools.reserve(more)?;
        self.monitors.reserve(more)?;
        if !places && next.description.is_none() {
            return Ok(self.published);
        }
        match self.published.checked_add(1) {
            Some(published) => Ok(published),
            None => Err(OutOfMemory),
        }
    }

    // The monitors, and who asks for a check, become as it was planned. No memory is taken.
    fn watch(&mut self, monitoring: Monitoring)
        requires placed { IsPlaced monitoring self.old.monitors.kept }
        ensures monitors { self.new.monitors.items ≡ monitors_after monitoring self.old.monitors.items }
        ensures kept { self.new.monitors.kept ≡ self.old.monitors.kept }
        ensures room { self.new.monitors.room ≡ self.old.monitors.room }
        ensures fresh { self.new.fresh ≡ numbers_after monitoring self.old.fresh }
        ensures watchers { self.new.watchers ≡ watchers_after monitoring self.old.watchers }
        ensures others { self.new ≡ record self.old { monitors = self.new.monitors; fresh = self.new.fresh; watchers = self.new.watchers } }
    {
        match monitoring {
            Monitoring::Same => {}
            Monitoring::Checked(index, monitor, numbers) => {
                self.monitors.put(index, monitor);
                self.fresh = numbers;
            }
            Monitoring::Asked(watchers) => {
                self.watchers = watchers;
            }
        }
    }

    // What is known changes, and the pools as it was planned. The monitors of those in which nothing lives then leave. No memory is taken.
    fn take(
        &mut self,
        moment: Moment,
        changes: Vec<PoolChange>,
        description: Option<TopologyDescription>,
        monitors: Vec<MonitorCore>,
        monitoring: Monitoring,
    )
        requires leads { (later : List PoolCore) × LeadsAll changes.items self.old.pools.cores.items later }
        requires pools { length self.old.pools.cores.items + length (opened_by changes.items) ≤ self.old.pools.cores.room }
        requires monitors { length self.old.monitors.items + length monitors.items ≤ self.old.monitors.room }
        requires placed { IsPlaced monitoring self.old.monitors.kept }
        ensures led { (later : List PoolCore) → LeadsAll changes.items self.old.pools.cores.items later → later ≡ self.new.pools.cores.items }
        ensures known { self.new.pools.known ≡ self.old.pools.known }
        ensures kept { (p : ℕ) → lives_at self.new.pools.cores.items p ≡ true → has p self.old.monitors.kept || (nat_le (length self.old.monitors.items) p && nat_lt p (length self.new.monitors.items)) ≡ true → has p self.new.monitors.kept ≡ true }
        ensures last { self.new.pools.last ≡ moment }
        ensures monitors { self.new.monitors.items ≡ monitors_after monitoring self.old.monitors.items ++ monitors.items }
        ensures fresh { self.new.fresh ≡ numbers_after monitoring self.old.fresh }
        ensures watchers { self.new.watchers ≡ watchers_after monitoring self.old.watchers }
        ensures description { self.new.description ≡ unwrap_or description self.old.description }
        ensures others { self.new ≡ record self.old { pools = self.new.pools; monitors = self.new.monitors; description = self.new.description; fresh = self.new.fresh; watchers = self.new.watchers } }
    {
        self.pools.apply_all(changes);
        self.pools.last = moment;
        self.watch(monitoring);
        push_all(&mut self.monitors, monitors);
        self.monitors.let_go(&self.pools.cores);
        if let Some(known) = description {
            self.description = known;
        }
    }

    // A description takes the place of the one of its server, where there is one. No memory is taken.
    fn place(&mut self, alloc: Global, server: Option<ServerDescription>)
        ensures { self.new ≡ record self.old { description = placed server self.old.description } }
    {
        if let Some(server) = server {
            self.description.store(alloc, server);
        }
    }

    /// An accepted step is logged and done. A description takes its place at the end, where there is one.
    pub(crate) fn accept(
        &mut self,
        alloc: Global,
        log: &mut Log,
        seat: u32,
        step: &Step,
        next: Transition,
        server: Option<ServerDescription>,
    ) -> Result<Reply, OutOfMemory>
        requires follows { FollowsSome self.old (with_place server self.old next) step.now }
        ensures options { self.new.options ≡ self.old.options }
        ensures logs { OnOk result ((h : List Item) → StandsFor self.old h → Follows self.old (with_place server self.old next) step.now h → Logs self.old self.new log.old log.new seat step.now h) }
        ensures reply { IfOk result (λ reply. reply ≡ next.reply) }
        ensures err_core { OnErr result (IsSame self.old self.new) }
        ensures err_log { OnErr result (log.new ≡ log.old) }
    {
        let published = match self.make_room(&next, server.is_some()) {
            Ok(published) => published,
            Err(e) => {
                drop(next);
                drop(server);
                return Err(e);
            }
        };
        let Transition {
            reply,
            facts,
            changes,
            description,
            monitors,
            monitoring,
            stops,
        } = next;
        match log.answer(seat, step, reply, facts) {
            Ok(told) => {
                self.take(step.moment, changes, description, monitors, monitoring);
                self.pools.note(&step.act);
                self.published = published;
                self.stopped = is_stopped_then(stops, self.stopped);
                self.place(alloc, server);
                Ok(told)
            }
            Err(_) => {
                drop(changes);
                drop(description);
                drop(monitors);
                drop(monitoring);
                drop(server);
                Err(OutOfMemory)
            }
        }
    }

    // What becomes of an act that concerns the topology.
    fn topology_act(&mut self, alloc: Global, step: &Step) -> Result<Decision, OutOfMemory>
        requires stands { StandsForSome self.old }
        requires in_time { self.old.pools.last ≤ step.now.moment }
        requires act { is_topology_act step.now.act ≡ true }
        ensures same { self.new ≡ self.old }
        ensures becomes { IfOk result (λ stepped. (h : List Item) → StandsFor self.old h → BecomesOf self.old step.now stepped h) }
        ensures wants { OnErr result ((h : List Item) → StandsFor self.old h → MayWant self.old step.now h) }
    {
        match &step.act {
            Act::Hello(address, pool, HelloResult::Ok(rtt, reply)) => {
                self.hello(alloc, step, address, *pool, *rtt, reply.get())
            }
            Act::Hello(address, pool, HelloResult::Err(error)) => {
                self.hello_error(alloc, step, address, *pool, error.get())
            }
            Act::Error(party, error) => self.operation_error(alloc, step, *party, error.get()),
            Act::Failed(pool, id, at, error) => {
                self.connection_failed(alloc, step, *pool, *id, *at, error.get())
            }
            Act::Hosts(hosts) => self.hosts(alloc, step, hosts.as_slice()),
            Act::ClusterTime(time) => self.cluster_time(alloc, step, *time),
            Act::Stop => self.stop_all(alloc, step),
            Act::Want(watcher) => self.want(alloc, step, *watcher),
            Act::Unwant(watcher) => self.unwant(alloc, step, *watcher),
            Act::Beaten(address, pool, duration, came) => {
                self.beaten(alloc, step, address, *pool, *duration, came)
            }
            Act::Beat(address, pool) => self.beat(alloc, step, address, *pool),
            Act::Rtt(address, pool, sample) => self.rtt(alloc, step, address, *pool, *sample),
            _ => unreachable!(),
        }
    }

    /// Why the driver would refuse the step, `None` where it would accept it. Nothing changes. The answer is `OutOfMemory` only where the step would not be refused, where by a reply more than 128 servers
    /// would be known or a pool would come whose number is past the limit (that shows only in what would be known then), or where a check begins over a connection whose number is. Any other refused step
    /// is lost for lack of memory for its entry in the log alone.
    pub fn refusal(&mut self, alloc: Global, step: &Step) -> Result<Option<Refused>, OutOfMemory>
        requires stands { StandsForSome self.old }
        requires act { IsDriverAct step.now.act }
        ensures same { self.new ≡ self.old }
        ensures why { IfOk result (λ why. (h : List Item) → StandsFor self.old h → why ≡ refusal self.old.options h step.now) }
        ensures wants { OnErr result ((h : List Item) → StandsFor self.old h → may_want self.old.options h step.now ≡ true) }
    {
        if step.moment < self.pools.last {
            return Ok(Some(Refused::TimeBack(self.pools.last)));
        }
        if is_pool_act(&step.act) {
            return Ok(self.pools.act(step).refusal());
        }
        match self.topology_act(alloc, step)? {
            Decision::Refused(why) => Ok(Some(why)),
            Decision::Accepted(next) => {
                drop(next);
                Ok(None)
            }
            Decision::Repeated(next, server) => {
                drop(next);
                drop(server);
                Ok(None)
            }
        }
    }

    // One step: the log gets its entry, or driver and log are as before.
    fn log_step(
        &mut self,
        alloc: Global,
        log: &mut Log,
        seat: u32,
        step: &Step,
    ) -> Result<Reply, OutOfMemory>
        requires stands { StandsForSome self.old }
        requires act { IsDriverAct step.now.act }
        ensures options { self.new.options ≡ self.old.options }
        ensures logs { OnOk result ((h : List Item) → StandsFor self.old h → Logs self.old self.new log.old log.new seat step.now h) }
        ensures reply { IfOk result (λ reply. (h : List Item) → StandsFor self.old h → reply ≡ (answer self.old.options h step.now).reply) }
        ensures err_core { OnErr result (IsSame self.old self.new) }
        ensures err_log { OnErr result (log.new ≡ log.old) }
    {
        if step.moment < self.pools.last {
            let why = Refused::TimeBack(self.pools.last);
            return Ok(refuse(alloc, log, seat, step, why)?);
        }
        if is_pool_act(&step.act) {
            return self.enter_pool_step(alloc, log, seat, step);
        }
        match self.topology_act(alloc, step)? {
            Decision::Refused(why) => Ok(refuse(alloc, log, seat, step, why)?),
            Decision::Accepted(next) => self.accept(alloc, log, seat, step, next, None),
            Decision::Repeated(next, server) => {
                self.accept(alloc, log, seat, step, next, Some(server))
            }
        }
    }

    /// One step of the driver: the log gets its entry, of the seat. Where the driver stood for the log, opened by its first entry, it stands for the longer one, so that each law of the logs of
    /// drivers goes on to hold. After `OutOfMemory` the driver and the log are as before, but for the room of lists.
    pub fn step(
        &mut self,
        alloc: Global,
        log: &mut Log,
        seat: u32,
        step: &Step,
    ) -> Result<Reply, OutOfMemory>
        requires stands { StandsForSome self.old }
        requires act { IsDriverAct step.now.act }
        ensures options { self.new.options ≡ self.old.options }
        ensures logs { OnOk result ((h : List Item) → StandsFor self.old h → Logs self.old self.new log.old log.new seat step.now h) }
        ensures driver { IsDriverOf self.old log.old → IsDriverOf self.new log.new }
        ensures reply { IfOk result (λ reply. (h : List Item) → StandsFor self.old h → reply ≡ (answer self.old.options h step.now).reply) }
        ensures err_core { OnErr result (IsSame self.old self.new) }
        ensures err_log { OnErr result (log.new ≡ log.old) }
    {
        self.log_step(alloc, log, seat, step)
    }
}

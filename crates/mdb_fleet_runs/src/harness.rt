//! A replica set beside a driver that watches it.

ghost use Rattle.std.specs.Prelude.{◌≡◌, ◌<◌, ◌≤◌, ◌-◌, ◌^◌, ◌∷◌, [], ℕ, List, length, IfOk};
ghost use Rattle.std.specs.Option.{option_copied};
ghost use Rattle.mdb_log.specs.declared.checked.HelloResult.TheVariants as hello;
ghost use Rattle.mdb_log.specs.declared.log.Entry.{Entry};
ghost use Rattle.mdb_fleets.specs.MemberReplies.{addresses_of};
ghost use Rattle.mdb_fleets.specs.ReplicaSet.{HasRoom, new_set};
ghost use Rattle.mdb_fleet_runs.specs.Harnesses.{Watches, WatchesSome, trial_in, Comes};
ghost use Rattle.mdb_fleet_runs.specs.Trials.{fleet_options, description_in, opened, lost, hello_step, steps, outcome, happens};
ghost use Rattle.mdb_fleet_runs.specs.declared.event.FleetAct.TheVariants as act;

use crate::answers::FleetAnswer;
use crate::event::{Event, FleetAct};
use mdb_base::{
    Error, ErrorKind, Items, Moment, ObjectId, Options, OutOfMemory, ServerAddress, Text,
};
use mdb_describe::TopologyDescription;
use mdb_fleets::{Fleet, member_address};
use mdb_hello::HelloCommandResponse;
use mdb_log::Log;
use mdb_topology::TopologyCore;
use std::alloc::Global;

/// A replica set, and a driver that was opened with all of its members as seeds.
#[derive(Drop)]
pub struct Harness {
    pub(crate) fleet: Fleet,
    pub(crate) core: TopologyCore,
}

// The addresses of so many members.
fn seeds(alloc: Global, count: u32) -> Result<Vec<ServerAddress>, OutOfMemory>
    ensures { IfOk result (λ seeds. seeds.items ≡ addresses_of count) }
{
    let mut seeds = Vec::new(alloc);
    for member in 0..count {
        seeds.push(member_address(alloc, member)?)?;
    }
    Ok(seeds)
}

fn options(alloc: Global, count: u32) -> Result<Options, OutOfMemory>
    ensures { IfOk result (λ options. options ≡ fleet_options count) }
{
    let seeds = seeds(alloc, count)?;
    let name = String::from_str(alloc, "rs")?;
    Ok(Options {
        seeds: Items::new(seeds),
        set_name: Some(Text::new(name)),
        direct: false,
        load_balanced: false,
        max_pool_size: None,
        min_pool_size: None,
        max_connecting: None,
        max_idle_time: None,
        max_wait: None,
        heartbeat: None,
        connect: None,
        streaming: None,
        limit_id: None,
        limit_generation: None,
        limit_pool: None,
        limit_monitor: None,
        topology_id: ObjectId([0; 12]),
    })
}

// The error of a hello that is lost.
fn lost(alloc: Global) -> Result<Error, OutOfMemory>
    ensures { IfOk result (λ error. error ≡ lost) }
{
    let message = String::from_str(alloc, "lost")?;
    Ok(Error {
        kind: ErrorKind::Network,
        labels: Items::new(Vec::new(alloc)),
        topology_version: None,
        message: Text::new(message),
    })
}

impl Harness {
    /// So many members, and a driver that knows them all. Its opening is the log's first entry.
    pub fn open(alloc: Global, log: &mut Log, count: u32) -> Result<Harness, OutOfMemory>
        requires some { 1 ≤ count }
        requires few { count ≤ 50 }
        requires empty { log.old ≡ [] }
        ensures fleet { IfOk result (λ harness. harness.fleet ≡ new_set count) }
        ensures log { IfOk result (λ harness. log.new ≡ opened count ∷ []) }
        ensures watches { IfOk result (λ harness. Watches count harness log.new) }
    {
        let fleet = Fleet::new(alloc, count)?;
        let options = options(alloc, count)?;
        let core = TopologyCore::open_seeds(alloc, log, 0, options)?;
        Ok(Harness { fleet, core })
    }

    /// What the driver describes.
    pub fn description(&self) -> &TopologyDescription
        ensures { (n : ℕ) (log : List Entry) → Watches n self.now log → result.now ≡ description_in n (trial_in self.now log) }
    {
        self.core.description()
    }

    fn elect(&mut self, member: u32) -> FleetAnswer
        requires { HasRoom self.old.fleet }
        ensures { (n m : ℕ) (log : List Entry) → Watches n self.old log → Comes n self.new log result (happens n (trial_in self.old log) m (act.Elect member)) }
    {
        if member >= self.fleet.count() {
            return FleetAnswer::NoMember;
        }
        self.fleet.elect(member);
        FleetAnswer::Done
    }

    fn step_down(&mut self, member: u32) -> FleetAnswer
        requires { HasRoom self.old.fleet }
        ensures { (n m : ℕ) (log : List Entry) → Watches n self.old log → Comes n self.new log result (happens n (trial_in self.old log) m (act.StepDown member)) }
    {
        if member >= self.fleet.count() {
            return FleetAnswer::NoMember;
        }
        if self.fleet.step_down(member) {
            FleetAnswer::Done
        } else {
            FleetAnswer::NotPrimary
        }
    }

    fn reconf(&mut self, member: u32) -> FleetAnswer
        requires { HasRoom self.old.fleet }
        ensures { (n m : ℕ) (log : List Entry) → Watches n self.old log → Comes n self.new log result (happens n (trial_in self.old log) m (act.Reconf member)) }
    {
        if member >= self.fleet.count() {
            return FleetAnswer::NoMember;
        }
        if self.fleet.reconf(member) {
            FleetAnswer::Done
        } else {
            FleetAnswer::NotPrimary
        }
    }

    fn ask(&mut self, alloc: Global, member: u32) -> Result<FleetAnswer, OutOfMemory>
        requires { length self.old.fleet.wire < 2 ^ 32 - 1 }
        ensures { IfOk result (λ answer. (n m : ℕ) (log : List Entry) → Watches n self.old log → Comes n self.new log answer (happens n (trial_in self.old log) m (act.Ask member))) }
    {
        if member >= self.fleet.count() {
            return Ok(FleetAnswer::NoMember);
        }
        Ok(FleetAnswer::Sent(self.fleet.ask(alloc, member)?))
    }

    // The reply of a member comes to the driver.
    fn comes(
        &mut self,
        alloc: Global,
        log: &mut Log,
        moment: Moment,
        member: u32,
        reply: HelloCommandResponse,
    ) -> Result<FleetAnswer, OutOfMemory>
        requires { WatchesSome self.old log.old }
        ensures { IfOk result (λ answer. (n : ℕ) → Watches n self.old log.old → Comes n self.new log.new answer (steps n (trial_in self.old log.old) (hello_step n (trial_in self.old log.old) moment member (hello.Ok 0 reply)))) }
    {
        let address = member_address(alloc, member)?;
        let pool = self.core.open_pool(&address).unwrap_or(0);
        let told = self
            .core
            .update(alloc, log, 0, moment, address, pool, 0, reply)?;
        Ok(FleetAnswer::Told(told))
    }

    fn deliver(
        &mut self,
        alloc: Global,
        log: &mut Log,
        moment: Moment,
        number: u32,
    ) -> Result<FleetAnswer, OutOfMemory>
        requires { WatchesSome self.old log.old }
        ensures { IfOk result (λ answer. (n : ℕ) → Watches n self.old log.old → Comes n self.new log.new answer (happens n (trial_in self.old log.old) moment (act.Deliver number))) }
    {
        match self.fleet.sent(number) {
            None => Ok(FleetAnswer::NoReply),
            Some(sent) => {
                let member = sent.member;
                let reply = sent.response.clone()?;
                self.comes(alloc, log, moment, member, reply)
            }
        }
    }

    // A hello to a member is lost.
    fn misses(
        &mut self,
        alloc: Global,
        log: &mut Log,
        moment: Moment,
        member: u32,
    ) -> Result<FleetAnswer, OutOfMemory>
        requires { WatchesSome self.old log.old }
        ensures { IfOk result (λ answer. (n : ℕ) → Watches n self.old log.old → Comes n self.new log.new answer (steps n (trial_in self.old log.old) (hello_step n (trial_in self.old log.old) moment member (hello.Err lost)))) }
    {
        let address = member_address(alloc, member)?;
        let error = lost(alloc)?;
        let pool = self.core.open_pool(&address).unwrap_or(0);
        let told = self
            .core
            .handle_monitor_error(alloc, log, 0, moment, address, pool, error)?;
        Ok(FleetAnswer::Told(told))
    }

    fn lose(
        &mut self,
        alloc: Global,
        log: &mut Log,
        moment: Moment,
        member: u32,
    ) -> Result<FleetAnswer, OutOfMemory>
        requires { WatchesSome self.old log.old }
        ensures { IfOk result (λ answer. (n : ℕ) → Watches n self.old log.old → Comes n self.new log.new answer (happens n (trial_in self.old log.old) moment (act.Lose member))) }
    {
        if member >= self.fleet.count() {
            return Ok(FleetAnswer::NoMember);
        }
        self.misses(alloc, log, moment, member)
    }

    /// Lets an event happen. A step of the driver adds an entry to the log, by seat 0; a refused event changes nothing.
    pub fn step(
        &mut self,
        alloc: Global,
        log: &mut Log,
        event: Event,
    ) -> Result<FleetAnswer, OutOfMemory>
        requires watches { WatchesSome self.old log.old }
        requires room { HasRoom self.old.fleet }
        requires few { length self.old.fleet.wire < 2 ^ 32 - 1 }
        ensures { IfOk result (λ answer. (n : ℕ) → Watches n self.old log.old → Comes n self.new log.new answer (outcome n (trial_in self.old log.old) event)) }
    {
        match event.act {
            FleetAct::Elect(member) => Ok(self.elect(member)),
            FleetAct::StepDown(member) => Ok(self.step_down(member)),
            FleetAct::Reconf(member) => Ok(self.reconf(member)),
            FleetAct::Ask(member) => self.ask(alloc, member),
            FleetAct::Deliver(number) => self.deliver(alloc, log, event.moment, number),
            FleetAct::Lose(member) => self.lose(alloc, log, event.moment, member),
        }
    }
}

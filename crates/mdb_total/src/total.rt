//! A running total.

ghost use Rattle.std.specs.Prelude.{◌≡◌, if◌then◌else◌, [], None, IfOk};
ghost use Rattle.mdb_describe.specs.Topology.{opened};
ghost use Rattle.mdb_log.specs.declared.step.Act.TheVariants.{Collect};
ghost use Rattle.mdb_log.specs.Driver.{is_refusal};
ghost use Rattle.mdb_total.specs.Totals.{after, reply_of, no_options, StandsFor};

use mdb_base::{Items, Moment, ObjectId, Options, OutOfMemory};
use mdb_describe::TopologyDescription;
use mdb_events::End;
use mdb_log::{Act, Core, Entry, Job, Log, Refused, Reply, Step};
use std::alloc::Global;

/// A core that adds the numbers of the watchers that want something. What else is asked is answered by the total: a request is in hand once the
/// total is above its number. It has no pool and no server.
#[derive(Drop)]
pub struct Total {
    sum: u64,
    last: Moment,
    description: TopologyDescription,
}

impl Total {
    /// A total of 0.
    pub fn new(alloc: Global) -> Result<Total, OutOfMemory>
        ensures { IfOk result (λ core. StandsFor core []) }
    {
        let options = Options {
            seeds: Items::new(Vec::new(alloc)),
            set_name: None,
            direct: false,
            load_balanced: false,
            max_pool_size: None,
            min_pool_size: None,
            max_connecting: None,
            max_idle_time: None,
            max_wait: None,
            heartbeat: None,
            connect: None,
            streaming: None,
            limit_id: None,
            limit_generation: None,
            limit_pool: None,
            limit_monitor: None,
            topology_id: ObjectId([0; 12]),
        };
        let description = TopologyDescription::initialize(alloc, &options)?;
        Ok(Total {
            sum: 0,
            last: 0,
            description,
        })
    }
}

fn sum_after(sum: u64, act: &Act) -> u64
    ensures { result ≡ after sum act.now }
{
    match act {
        Act::Want(number) => sum.wrapping_add(*number as u64),
        _ => sum,
    }
}

fn collected(sum: u64, request: u32) -> Reply
    ensures { result ≡ reply_of sum (Collect request) }
{
    let number = request as u64;
    if sum == 0 {
        Reply::Refused(Refused::UnknownRequest)
    } else if number < sum {
        Reply::Pooled(0, request)
    } else if number == sum {
        Reply::Ended(End::Closed)
    } else {
        Reply::Waiting
    }
}

fn reply(sum: u64, act: &Act) -> Reply
    ensures { result ≡ reply_of sum act.now }
{
    match act {
        Act::Request(_, _) => Reply::Waiting,
        Act::Warm(_, _) => Reply::Waiting,
        Act::Collect(request) => collected(sum, *request),
        Act::Claim => Reply::NoJob,
        Act::GiveUp(request) if (*request as u64) < sum => Reply::Done,
        Act::GiveUp(_) => Reply::Refused(Refused::UnknownRequest),
        Act::Return(party, _) if (*party as u64) < sum => Reply::Done,
        Act::Return(_, _) => Reply::Refused(Refused::NotHolder),
        Act::Take(_, pool, id) => Reply::Pooled(*pool, *id),
        Act::Error(_, _) => Reply::Changed(false),
        Act::Hello(_, _, _) => Reply::Changed(false),
        Act::Beaten(_, _, _, _) => Reply::Changed(false),
        Act::Rtt(_, _, _) => Reply::Changed(false),
        Act::Hosts(_) => Reply::Changed(false),
        Act::Want(_) => Reply::Count(sum),
        Act::Unwant(_) => Reply::Count(sum),
        _ => Reply::Done,
    }
}

// A refused step doesn't move the last moment.
fn moved(last: Moment, moment: Moment, reply: &Reply) -> Moment
    ensures { result ≡ (if is_refusal reply.now then last else moment) }
{
    match reply {
        Reply::Refused(_) => last,
        _ => moment,
    }
}

impl Core for Total {
    ghost use Rattle.std.proofs.Math.Nat.{le_refl};

    ghost stands = { StandsFor };

    ghost described = { λ log. opened no_options };

    ghost publications = { λ log. 0 };

    ghost job_after = { λ log pool id. None };

    fn step(
        &mut self,
        alloc: Global,
        log: &mut Log,
        seat: u32,
        step: &Step,
    ) -> Result<Reply, OutOfMemory> {
        let sum = sum_after(self.sum, &step.act);
        let answer = reply(sum, &step.act);
        let entry = Entry {
            seat,
            step: step.clone()?,
            reply: reply(sum, &step.act),
            facts: Items::new(Vec::new(alloc)),
        };
        log.push(entry)?;
        self.sum = sum;
        self.last = moved(self.last, step.moment, &answer);
        Ok(answer)
    }

    fn last_moment(&self) -> Moment {
        self.last
    }

    fn description(&self) -> &TopologyDescription {
        &self.description
    }

    fn published(&self) -> u64 {
        0
    }

    fn job(&self, alloc: Global, pool: u32, id: u32) -> Result<Option<Job>, OutOfMemory> {
        Ok(None)
    }

    ghost publications_grow = { λ log more. le_refl 0 };
}

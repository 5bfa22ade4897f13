//! Rounds of one pool. Parties have the numbers from 1 on, in the order in which they ask.

ghost use Rattle.std.specs.Prelude.{ℕ, true, ◌≡◌, ◌≤◌};
ghost use Rattle.mdb_log.specs.Acts.{IsPoolAct};
ghost use Rattle.mdb_bench.specs.Counts.{counts_of};
ghost use Rattle.mdb_bench.specs.Plans.{IsWithin};

use crate::counts::{Counts, count_slots};
use crate::errors::BenchError;
use crate::plan::{Kind, Plan};
use mdb_base::{ObjectId, OutOfMemory, ServerAddress};
use mdb_log::{Act, Established, Log, PoolOptions, Step, Use};
use mdb_pool::PoolCore;
use std::alloc::{AllocError, Global};
use std::io;

type Stepped = Result<(), OutOfMemory>;

const POOL: u32 = 0;

// The service behind the load balancer.
const SERVICE: ObjectId = ObjectId([1; 12]);

// A load balancer's pool is ready from the start.
fn options(connections: u32) -> PoolOptions {
    PoolOptions {
        max_pool_size: Some(connections),
        min_pool_size: None,
        max_idle_time: None,
        max_connecting: Some(connections),
        max_wait: None,
        load_balanced: true,
        limit_id: u32::MAX,
        limit_generation: u64::MAX,
    }
}

// Makes the act the request of this party, which any pool takes. False where it is no request.
fn ask_as(act: &mut Act, party: u32) -> bool
    ensures { result ≡ true → (pool : ℕ) → IsPoolAct pool act.new }
{
    match act {
        Act::Request(number, _) => {
            *number = party;
            true
        }
        _ => false,
    }
}

// A pool with the log of its steps.
#[derive(Drop)]
struct Rounds {
    alloc: Global,
    core: PoolCore,
    log: Log,
    // A request, of the party that asked last.
    asking: Step,
}

impl Rounds {
    fn new(alloc: Global, connections: u32) -> Result<Rounds, AllocError> {
        let host = String::from_str(alloc, "localhost")?;
        let address = ServerAddress::new(host, 27017)?;
        let asking = Step {
            moment: 0,
            act: Act::Request(0, address.clone()?),
        };
        Ok(Rounds {
            alloc,
            core: PoolCore::new(alloc, POOL, address, options(connections)),
            log: Log::new(alloc),
            asking,
        })
    }

    // The functions that make an act do not drop it, since a drop there looks at every kind of act.
    fn step(&mut self, act: Act) -> Stepped
        requires { IsPoolAct self.old.core.pool act }
    {
        if !self.core.is_alone() {
            drop(act);
            return Ok(());
        }
        let step = Step { moment: 0, act };
        let stepped = self.core.step(self.alloc, &mut self.log, 0, &step);
        drop(step);
        stepped
    }

    fn request(&mut self, party: u32) -> Stepped {
        if !ask_as(&mut self.asking.act, party) {
            return Ok(());
        }
        if !self.core.is_alone() {
            return Ok(());
        }
        self.core.step(self.alloc, &mut self.log, 0, &self.asking)
    }

    // The caller of a request that waited is told that it has its connection.
    fn collect(&mut self, party: u32) -> Stepped {
        self.step(Act::Collect(party))
    }

    fn establish(&mut self, id: u32) -> Stepped {
        let made = Established {
            wire: 21,
            service_id: Some(SERVICE),
            server_id: None,
        };
        self.step(Act::Established(POOL, id, made))
    }

    fn give_back(&mut self, party: u32) -> Stepped {
        self.step(Act::Return(party, Use::Ok))
    }

    // The first parties, as many as there may be connections, hold one each.
    fn fill(&mut self, connections: u32) -> Stepped
        requires { connections ≤ 10000 }
    {
        for i in 0..connections {
            self.request(i + 1)?;
            self.establish(i + 1)?;
        }
        Ok(())
    }

    // What the rounds meet: all connections come back, or as many callers wait.
    fn set_up(&mut self, plan: Plan) -> Stepped
        requires { IsWithin plan }
    {
        self.fill(plan.connections)?;
        for i in 0..plan.connections {
            match plan.kind {
                Kind::Waiting => self.request(plan.connections + i + 1)?,
                _ => self.give_back(i + 1)?,
            }
        }
        Ok(())
    }

    // Each round a party gets the connection that came back last, and returns it.
    fn available_rounds(&mut self, plan: Plan) -> Stepped
        requires { IsWithin plan }
    {
        for i in 0..plan.rounds {
            let party = plan.connections + i + 1;
            self.request(party)?;
            self.give_back(party)?;
        }
        Ok(())
    }

    // Each round a party returns its connection, the one that waits longest gets it and is told so, and a new one comes last.
    fn waiting_rounds(&mut self, plan: Plan) -> Stepped
        requires { IsWithin plan }
    {
        for i in 0..plan.rounds {
            self.give_back(i + 1)?;
            self.collect(plan.connections + i + 1)?;
            self.request(2 * plan.connections + i + 1)?;
        }
        Ok(())
    }

    // A pool that is ready for the rounds of the plan.
    fn open(alloc: Global, plan: Plan) -> Result<Rounds, OutOfMemory>
        requires { IsWithin plan }
    {
        let mut rounds = Rounds::new(alloc, plan.connections)?;
        match rounds.set_up(plan) {
            Ok(()) => Ok(rounds),
            Err(e) => {
                drop(rounds);
                Err(e)
            }
        }
    }

    // Does the rounds of the plan.
    fn run(&mut self, plan: Plan) -> Stepped
        requires { IsWithin plan }
    {
        match plan.kind {
            Kind::Waiting => self.waiting_rounds(plan),
            _ => self.available_rounds(plan),
        }
    }

    // What the log came to.
    fn counts(&self) -> Counts
        ensures { result ≡ counts_of self.now.log }
    {
        Counts::of(self.log.entries())
    }
}

// Does the rounds, and tells what they came to. What times them reads the first two lines.
fn tell(rt: &HostRuntime, rounds: &mut Rounds, plan: Plan) -> io::Result<Result<(), BenchError>>
    requires { IsWithin plan }
{
    println!(rt; "opened")?;
    if rounds.run(plan).is_err() {
        return Ok(Err(BenchError::OutOfMemory));
    }
    println!(rt; "done")?;
    let Counts { entries, granted } = rounds.counts();
    let slots = count_slots(rounds.core.available(), plan.connections);
    println!(rt;
        "connections={} rounds={} entries={entries} granted={granted} slots={slots}",
        plan.connections, plan.rounds
    )?;
    Ok(Ok(()))
}

/// Opens a pool, and does the rounds of the plan.
pub fn run_pool(rt: &HostRuntime, plan: Plan) -> io::Result<Result<(), BenchError>>
    requires { IsWithin plan }
{
    match Rounds::open(rt.alloc(), plan) {
        Ok(mut rounds) => {
            let told = tell(rt, &mut rounds, plan);
            drop(rounds);
            told
        }
        Err(_) => Ok(Err(BenchError::OutOfMemory)),
    }
}

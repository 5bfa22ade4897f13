//! The rounds of one thread: a connection out and in. From time to time a pool is cleared, and a server goes and comes.

ghost use Rattle.mdb_log.specs.Acts.{IsDriverAct};

use crate::errors::BenchError;
use crate::lasting::Lasting;
use crate::opening::{address_of, addresses, hello, network_error, open};
use crate::plan::{Kind, Plan};
use mdb_base::{Items, ServerAddress};
use mdb_log::{Act, Core, Established, Log, Reply, Use};
use std::alloc::Global;
use std::io;

// After so many entries they are let go.
const ENTRIES: u64 = 1_000;

// Each so many rounds a pool is cleared, and the last server goes and comes.
const CLEARS: u32 = 1_000;

const COMES: u32 = 10_000;

// The first of the parties by which a pool is filled; a round's party is one more than its number.
const FILLER: u32 = 2_000_000_000;

// So often it tells how far it is.
const PARTS: u32 = 10;

// What the rounds have come to: connections that were checked out and in, and established, pools that were cleared, and how often the last server came again.
#[derive(Clone, Copy)]
struct Tally {
    returned: u64,
    established: u64,
    cleared: u64,
    came: u32,
}

// What a step was answered, as far as a round asks.
#[derive(Clone, Copy, PartialEq, Eq)]
enum Answer {
    // The party has a connection.
    Pooled,
    // A connection to establish: the numbers of its pool and its own.
    Job(u32, u32),
    Other,
}

fn answer_of(reply: &Reply) -> Answer {
    match reply {
        Reply::Pooled(_, _) => Answer::Pooled,
        Reply::Job(pool, id) => Answer::Job(*pool, *id),
        _ => Answer::Other,
    }
}

// The rounds of one thread at a driver, and what they have come to.
#[derive(Drop)]
struct Course<C: Core> {
    lasting: Lasting<C>,
    plan: Plan,
    addresses: Vec<ServerAddress>,
    tally: Tally,
}

impl<C: Core> Course<C> {
    fn act(&mut self, alloc: Global, at: u32, act: Act) -> Result<Answer, BenchError>
        requires { IsDriverAct act }
    {
        let reply = self.lasting.step(alloc, at as u64, act)?;
        let answer = answer_of(&reply);
        drop(reply);
        Ok(answer)
    }

    fn is_calm(&self) -> bool {
        matches!(self.plan.kind, Kind::Calm)
    }

    fn last(&self) -> u32 {
        self.plan.servers.saturating_sub(1)
    }

    // The number of the server's pool. The last server has a new one each time that it comes.
    fn pool(&self, server: u32) -> u32 {
        if server == self.last() {
            return server.wrapping_add(self.tally.came);
        }
        server
    }

    // The server greets.
    fn greet(&mut self, alloc: Global, at: u32, server: u32) -> Result<(), BenchError> {
        let pool = self.pool(server);
        let hello = hello(alloc, self.addresses.as_slice(), server, pool)?;
        self.act(alloc, at, hello)?;
        Ok(())
    }

    // Establishes all connections that are to be established.
    fn establish(&mut self, alloc: Global, at: u32) -> Result<(), BenchError> {
        for _ in 0..u32::MAX {
            let Answer::Job(pool, id) = self.act(alloc, at, Act::Claim)? else {
                break;
            };
            let made = Established {
                wire: 21,
                service_id: None,
                server_id: None,
            };
            self.act(alloc, at, Act::Established(pool, id, made))?;
            self.tally.established = self.tally.established.wrapping_add(1);
        }
        Ok(())
    }

    // All connections of the server's pool are established, and are available then.
    fn fill(&mut self, alloc: Global, server: u32) -> Result<(), BenchError> {
        let first = FILLER.wrapping_add(server.wrapping_mul(self.plan.connections));
        for number in 0..self.plan.connections {
            let address = address_of(self.addresses.as_slice(), server)?;
            let party = first.wrapping_add(number);
            self.act(alloc, 0, Act::Request(party, address))?;
        }
        self.establish(alloc, 0)?;
        for number in 0..self.plan.connections {
            let party = first.wrapping_add(number);
            self.act(alloc, 0, Act::Collect(party))?;
            self.act(alloc, 0, Act::Return(party, Use::Ok))?;
        }
        Ok(())
    }

    // Each server greets, and where nothing goes wrong its pool is filled.
    fn begin(&mut self, alloc: Global) -> Result<(), BenchError> {
        for server in 0..self.plan.servers {
            self.greet(alloc, 0, server)?;
            if self.is_calm() {
                self.fill(alloc, server)?;
            }
            self.let_go(alloc);
        }
        Ok(())
    }

    // The party has a connection of the server.
    fn take_out(
        &mut self,
        alloc: Global,
        at: u32,
        server: u32,
        party: u32,
    ) -> Result<(), BenchError> {
        let address = address_of(self.addresses.as_slice(), server)?;
        if self.act(alloc, at, Act::Request(party, address))? == Answer::Pooled {
            return Ok(());
        }
        self.establish(alloc, at)?;
        if self.act(alloc, at, Act::Collect(party))? == Answer::Pooled {
            return Ok(());
        }
        Err(BenchError::Answer)
    }

    // The connection of the party met an error of the network: its pool is cleared, and its server greets again.
    fn clear(&mut self, alloc: Global, at: u32, server: u32, party: u32) -> Result<(), BenchError> {
        let error = network_error(alloc, party)?;
        self.act(alloc, at, error)?;
        self.act(alloc, at, Act::Return(party, Use::Errored))?;
        self.greet(alloc, at, server)?;
        self.tally.cleared = self.tally.cleared.wrapping_add(1);
        Ok(())
    }

    // The party gives its connection back.
    fn bring_back(
        &mut self,
        alloc: Global,
        at: u32,
        server: u32,
        party: u32,
    ) -> Result<(), BenchError> {
        if !self.is_calm() && party % CLEARS == 0 {
            return self.clear(alloc, at, server, party);
        }
        self.act(alloc, at, Act::Return(party, Use::Ok))?;
        Ok(())
    }

    // The hosts of the topology are the first so many servers.
    fn hosts(&mut self, alloc: Global, at: u32, servers: u32) -> Result<(), BenchError> {
        let hosts = Items::new(addresses(alloc, servers)?);
        self.act(alloc, at, Act::Hosts(hosts))?;
        Ok(())
    }

    // The last server goes and comes.
    fn come_again(&mut self, alloc: Global, at: u32) -> Result<(), BenchError> {
        let last = self.last();
        self.hosts(alloc, at, last)?;
        let all = self.plan.servers;
        self.hosts(alloc, at, all)?;
        self.tally.came = self.tally.came.wrapping_add(1);
        self.greet(alloc, at, last)
    }

    // One round, of the party that is named by its number.
    fn round(&mut self, alloc: Global, at: u32) -> Result<(), BenchError> {
        let party = at.wrapping_add(1);
        let server = at.checked_rem(self.plan.servers).unwrap_or(0);
        self.take_out(alloc, at, server, party)?;
        self.bring_back(alloc, at, server, party)?;
        self.tally.returned = self.tally.returned.wrapping_add(1);
        if !self.is_calm() && party % COMES == 0 {
            self.come_again(alloc, at)?;
        }
        Ok(())
    }

    // The entries are let go, where there are many.
    fn let_go(&mut self, alloc: Global) {
        if self.lasting.len().saturating_sub(self.lasting.gone()) >= ENTRIES {
            self.lasting.let_go(alloc);
        }
    }

    // The rounds from this number on to before the other one.
    fn run(&mut self, alloc: Global, from: u32, to: u32) -> Result<(), BenchError> {
        for at in from..to {
            self.round(alloc, at)?;
            self.let_go(alloc);
        }
        Ok(())
    }

    // All rounds. What times them reads a line after each part of them.
    fn run_parts(&mut self, rt: &HostRuntime) -> io::Result<Result<(), BenchError>> {
        let rounds = self.plan.rounds;
        let part = rounds / PARTS;
        let mut from = 0u32;
        for number in 1..PARTS + 1 {
            let to = if number == PARTS {
                rounds
            } else {
                from.saturating_add(part)
            };
            if let Err(why) = self.run(rt.alloc(), from, to) {
                return Ok(Err(why));
            }
            from = to;
            let entries = self.lasting.len();
            println!(rt;
                "returned={} entries={entries} established={} cleared={} came={}",
                self.tally.returned, self.tally.established, self.tally.cleared, self.tally.came
            )?;
        }
        Ok(Ok(()))
    }
}

// The rounds of one thread at a driver of this core that stands for this log.
fn run_over<C: Core>(
    rt: &HostRuntime,
    core: C,
    log: Log,
    addresses: Vec<ServerAddress>,
    plan: Plan,
) -> io::Result<Result<(), BenchError>>
    requires { C.stands core log }
{
    let mut course = Course {
        lasting: Lasting::new(core, log),
        plan,
        addresses,
        tally: Tally {
            returned: 0,
            established: 0,
            cleared: 0,
            came: 0,
        },
    };
    let done = match course.begin(rt.alloc()) {
        Ok(()) => course.run_parts(rt),
        Err(why) => Ok(Err(why)),
    };
    drop(course);
    done
}

/// The rounds of the plan, by one thread at a driver of its own.
pub fn run_alone(rt: &HostRuntime, plan: Plan) -> io::Result<Result<(), BenchError>> {
    let addresses = match addresses(rt.alloc(), plan.servers) {
        Ok(addresses) => addresses,
        Err(why) => return Ok(Err(why)),
    };
    match open(rt.alloc(), plan) {
        Ok((core, log)) => run_over(rt, core, log, addresses, plan),
        Err(why) => {
            drop(addresses);
            Ok(Err(why))
        }
    }
}

//! Rounds of a proxy, whose tenants have a share of one each. Each holds a connection. A round is three steps: the tenant asks and is held back, returns its connection,
//! by which the ask is handed on and served, and collects what it got. Requests have the numbers from 0 on, in the order in which they are made.

ghost use Rattle.std.specs.Prelude.{◌≤◌};
ghost use Rattle.mdb_bench.specs.Plans.{IsWithin};

use crate::errors::BenchError;
use crate::opening::{address_of, addresses, open};
use crate::plan::Plan;
use mdb_base::{ObjectId, OutOfMemory, ServerAddress};
use mdb_log::{Act, Core, Established, Log, Use};
use mdb_proxies::{Proxy, ProxyAct, ProxyReply, ProxyStep, ShareError};
use std::alloc::Global;
use std::io;

type Stepped = Result<(), OutOfMemory>;

const POOL: u32 = 0;

// The service behind the load balancer.
const SERVICE: ObjectId = ObjectId([1; 12]);

// A proxy over any core, and how many asks were held back so far.
#[derive(Drop)]
struct Tenants<C: Core> {
    alloc: Global,
    proxy: Proxy<C>,
    address: ServerAddress,
    held: u32,
}

impl<C: Core> Tenants<C> {
    // The functions that make an act do not drop it, since a drop there looks at every kind of act. True where the request is held back.
    fn step(&mut self, act: ProxyAct) -> Result<bool, OutOfMemory> {
        let step = ProxyStep { moment: 0, act };
        let answer = self.proxy.step(self.alloc, step)?;
        let is_held = matches!(&answer.reply, ProxyReply::Held);
        drop(answer);
        Ok(is_held)
    }

    fn ask(&mut self, tenant: u32, request: u32) -> Stepped {
        let address = self.address.clone()?;
        if self.step(ProxyAct::Ask(tenant, request, address))? {
            self.held = self.held.saturating_add(1);
        }
        Ok(())
    }

    fn establish(&mut self, id: u32) -> Stepped {
        let made = Established {
            wire: 21,
            service_id: Some(SERVICE),
            server_id: None,
        };
        self.step(ProxyAct::Pass(Act::Established(POOL, id, made)))?;
        Ok(())
    }

    fn finish(&mut self, request: u32) -> Stepped {
        self.step(ProxyAct::Finish(request, Use::Ok))?;
        Ok(())
    }

    fn collect(&mut self, request: u32) -> Stepped {
        self.step(ProxyAct::Collect(request))?;
        Ok(())
    }

    // Each tenant gets a connection: request n is that of tenant n.
    fn fill(&mut self, tenants: u32) -> Stepped
        requires { tenants ≤ 10000 }
    {
        for tenant in 0..tenants {
            self.ask(tenant, tenant)?;
            self.establish(tenant + 1)?;
        }
        Ok(())
    }

    // Does the rounds of the plan. In round n the tenant whose turn it is holds what request n got.
    fn do_rounds(&mut self, plan: Plan) -> Stepped
        requires { IsWithin plan }
    {
        for n in 0..plan.rounds {
            let new = plan.connections + n;
            self.ask(n % plan.connections, new)?;
            self.finish(n)?;
            self.collect(new)?;
        }
        Ok(())
    }

    // Each tenant gets its connection, and then the rounds of the plan are done.
    fn run(&mut self, plan: Plan) -> Stepped
        requires { IsWithin plan }
    {
        self.fill(plan.connections)?;
        self.do_rounds(plan)
    }
}

// Does the rounds, and tells what they came to: the entries of the log, the asks that were made, and how many of them were held back.
fn tell<C: Core>(
    rt: &HostRuntime,
    tenants: &mut Tenants<C>,
    plan: Plan,
) -> io::Result<Result<(), BenchError>>
    requires { IsWithin plan }
{
    if tenants.run(plan).is_err() {
        return Ok(Err(BenchError::OutOfMemory));
    }
    let entries = tenants.proxy.log().len();
    let asks = tenants.proxy.asks().len();
    println!(rt;
        "tenants={} rounds={} entries={entries} asks={asks} held={}",
        plan.connections, plan.rounds, tenants.held
    )?;
    Ok(Ok(()))
}

// A proxy over the core, with a share of one for each tenant.
fn proxy<C: Core>(alloc: Global, core: C, log: Log, tenants: u32) -> Result<Proxy<C>, BenchError>
    requires stands { C.stands core log }
{
    let mut shares = Vec::new(alloc);
    for _ in 0..tenants {
        if shares.push(1).is_err() {
            drop(core);
            drop(log);
            return Err(BenchError::OutOfMemory);
        }
    }
    match Proxy::new(alloc, core, log, shares, tenants) {
        Ok(proxy) => Ok(proxy),
        Err(ShareError::Shares) => Err(BenchError::Options),
        Err(ShareError::OutOfMemory) => Err(BenchError::OutOfMemory),
    }
}

// The rounds of a proxy over this core.
fn run_over<C: Core>(
    rt: &HostRuntime,
    core: C,
    log: Log,
    address: ServerAddress,
    plan: Plan,
) -> io::Result<Result<(), BenchError>>
    requires stands { C.stands core log }
    requires within { IsWithin plan }
{
    match proxy(rt.alloc(), core, log, plan.connections) {
        Ok(proxy) => {
            let mut tenants = Tenants {
                alloc: rt.alloc(),
                proxy,
                address,
                held: 0,
            };
            let told = tell(rt, &mut tenants, plan);
            drop(tenants);
            told
        }
        Err(why) => {
            drop(address);
            Ok(Err(why))
        }
    }
}

fn first_address(alloc: Global) -> Result<ServerAddress, BenchError> {
    let addresses = addresses(alloc, 1)?;
    let address = address_of(addresses.as_slice(), 0);
    drop(addresses);
    address
}

/// The rounds of the plan, by a proxy over a driver behind a load balancer.
pub fn run_proxy(rt: &HostRuntime, plan: Plan) -> io::Result<Result<(), BenchError>>
    requires { IsWithin plan }
{
    let address = match first_address(rt.alloc()) {
        Ok(address) => address,
        Err(why) => return Ok(Err(why)),
    };
    match open(rt.alloc(), plan) {
        Ok((core, log)) => run_over(rt, core, log, address, plan),
        Err(why) => {
            drop(address);
            Ok(Err(why))
        }
    }
}

//! Rounds that the scripts under `bench` time: of one pool, of a driver by one thread or by many, and of a proxy with tenants.
#![tactic(auto)]

ghost use Rattle.std.specs.Prelude.{IfSome};
ghost use Rattle.mdb_bench.specs.Plans.{IsWithin};

mod alone;
mod counts;
mod errors;
mod hall;
mod lasting;
mod opening;
mod plan;
mod pool;
mod proxy;
mod roles;
mod sharing;

use alone::run_alone;
use errors::BenchError;
use mdb_lines::command_words;
use plan::{Kind, Plan, USAGE, WORDS};
use pool::run_pool;
use proxy::run_proxy;
use sharing::{Shared, run_shared};
use std::alloc::AllocError;
use std::io;
use std::process::ExitCode;

const FAILED: u8 = 1;

const WRONG_WORDS: u8 = 2;

// The plan of this number among the words.
fn plan_at(words: &[String], number: usize) -> Option<Plan>
    ensures { IfSome result IsWithin }
{
    let from = number.saturating_mul(WORDS);
    Plan::read(words.get(from..from.saturating_add(WORDS))?)
}

fn fail(rt: &HostRuntime, why: BenchError) -> io::Result<ExitCode> {
    match why {
        BenchError::OutOfMemory => Err(AllocError.into()),
        BenchError::Words => {
            eprintln!(rt; "{USAGE}")?;
            Ok(ExitCode::from(WRONG_WORDS))
        }
        why => {
            eprintln!(rt; "{why}")?;
            Ok(ExitCode::from(FAILED))
        }
    }
}

// The rounds of one thread.
fn run(rt: &HostRuntime, plan: Plan) -> io::Result<Result<(), BenchError>>
    requires { IsWithin plan }
{
    match plan.kind {
        Kind::Available | Kind::Waiting => run_pool(rt, plan),
        Kind::Lasting | Kind::Calm => run_alone(rt, plan),
        _ => run_proxy(rt, plan),
    }
}

// What the rounds of many threads came to. Where nobody took an entry the schedule decides how many there are.
fn tell_shared(
    rt: &HostRuntime,
    plan: Plan,
    shared: Result<Shared, BenchError>,
) -> io::Result<Result<(), BenchError>> {
    let shared = match shared {
        Ok(shared) => shared,
        Err(why) => return Ok(Err(why)),
    };
    let Shared {
        returned,
        entries,
        micros,
        taken_all,
    } = shared;
    match plan.kind {
        Kind::Kept => println!(rt; "returned={returned} entries={entries} micros={micros}")?,
        _ => println!(rt; "returned={returned} taken_all={taken_all}")?,
    }
    Ok(Ok(()))
}

// How many plans so many words are.
fn count_plans(words: &[String]) -> usize {
    let whole = words.len() / WORDS;
    if words.len() % WORDS == 0 {
        return whole;
    }
    whole.saturating_add(1)
}

fn main(rt: HostRuntime) -> io::Result<ExitCode> {
    let words = command_words(&rt)?;
    let mut done = Ok(Ok(()));
    for number in 0..count_plans(words.as_slice()) {
        done = match plan_at(words.as_slice(), number) {
            Some(plan) if plan.is_shared() => {
                tell_shared(&rt, plan, run_shared(&rt, rt.alloc(), plan))
            }
            Some(plan) => run(&rt, plan),
            None => Ok(Err(BenchError::Words)),
        };
        if !matches!(&done, Ok(Ok(()))) {
            break;
        }
    }
    drop(words);
    match done? {
        Ok(()) => Ok(ExitCode::SUCCESS),
        Err(why) => fail(&rt, why),
    }
}

//! Cases of mdb_pool: why a pool refuses a request, steps in two parts, and the job of a connection.

ghost use Rattle.mdb_pool.specs.Planning.{IsPlanOf};

use crate::pool::Pool;
use crate::pool_told::{tell_facts, tell_reply};
use mdb_base::ObjectId;
use mdb_cases::{Page, number, parted, small};
use mdb_log::{Act, Job, PoolGeneration, Step};
use mdb_pool::PoolCore;
use mdb_pool::planning::{Answered, Plan, apply, prepare};

/// `pool would MOMENT PARTY`: why the pool refuses the party's request, if it does.
pub fn would(page: &mut Page, core: &PoolCore, words: &str) {
    let Some(address) = page.address("a:1") else {
        return;
    };
    let (moment, party) = parted(words);
    let step = Step {
        moment: number(moment),
        act: Act::Request(small(party), address),
    };
    if core.is_alone() {
        page.debug(&core.refusal_now(&step));
    }
    drop(step);
}

fn tell_answers(page: &mut Page, answers: &[Answered]) {
    for answer in answers {
        tell_reply(page, &answer.reply);
        tell_facts(page, answer.facts.as_slice());
    }
}

fn finish(core: &mut PoolCore, plan: Plan, applies: bool)
    requires { IsPlanOf plan core.old }
{
    if applies {
        apply(core, plan);
    } else {
        drop(plan);
    }
}

/// `pool plan MOMENT PARTY`: what the party's request is answered in the first part; the plan is dropped. `pool do MOMENT PARTY`: it is applied.
pub fn request_in_parts(page: &mut Page, pool: &mut Pool, words: &str, applies: bool) {
    let Some(address) = page.address("a:1") else {
        return;
    };
    let (moment, party) = parted(words);
    let steps = [Step {
        moment: number(moment),
        act: Act::Request(small(party), address),
    }];
    if !pool.core.is_alone() {
        drop(steps);
        return;
    }
    let prepared = prepare(page.alloc, &mut pool.core, &steps);
    drop(steps);
    match prepared {
        Ok((answers, plan)) => {
            tell_answers(page, answers.as_slice());
            drop(answers);
            finish(&mut pool.core, plan, applies);
        }
        Err(_) => page.fail(),
    }
}

fn tell_cleared(page: &mut Page, cleared: &[(ObjectId, u64)]) {
    for (service, times) in cleared {
        page.put(" ");
        page.show(service);
        page.put(" ");
        page.show(times);
    }
}

fn tell_job(page: &mut Page, job: &Job) {
    page.show(&job.pool);
    page.put(".");
    page.show(&job.id);
    page.put(" ");
    page.show(&job.address);
    page.put(" ");
    page.show(&job.generation.pool);
    match &job.generation.generation {
        PoolGeneration::Normal(times) => {
            page.put(" ");
            page.show(times);
        }
        PoolGeneration::LoadBalanced(cleared) => tell_cleared(page, cleared.as_slice()),
    }
}

/// `pool tell job ID`: the pool and the connection, the address, and how often the pool, or which service how often, was cleared before.
pub fn pending_job(page: &mut Page, core: &PoolCore, id: u32) {
    let job = core.job(page.alloc, id);
    match &job {
        Ok(Some(job)) => tell_job(page, job),
        Ok(None) => page.put("none"),
        Err(_) => page.fail(),
    }
    drop(job);
}

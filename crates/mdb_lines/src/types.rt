//! That the numbers of a step are those of its types.

ghost use Rattle.std.specs.Prelude.{◌<◌, ◌^◌};
ghost use Rattle.mdb_lines.specs.Types.{AreOptionsOfTypes, IsEstablishedOfTypes, IsFailedAtOfTypes, IsHelloOfTypes, IsBeatenOfTypes, IsTopologyActOfTypes, IsStepOfTypes};

use mdb_base::Options;
use mdb_log::{Act, BeatenResult, Established, FailedAt, HelloResult, Step};
use mdb_parts::error_types;
use mdb_parts::number_types::{narrow, optional_id, signed, wide};
use mdb_replies::reply_types;

fn options(o: &Options)
    ensures { AreOptionsOfTypes o.now }
{
    narrow(o.max_pool_size);
    narrow(o.min_pool_size);
    narrow(o.max_connecting);
    wide(o.max_idle_time);
    wide(o.max_wait);
    wide(o.heartbeat);
    wide(o.connect);
    narrow(o.limit_id);
    wide(o.limit_generation);
    narrow(o.limit_pool);
    narrow(o.limit_monitor);
}

fn established(made: &Established)
    ensures { IsEstablishedOfTypes made.now }
{
    let _wire = made.wire;
    optional_id(made.service_id);
    signed(made.server_id);
}

fn failed_at(at: FailedAt)
    ensures { IsFailedAtOfTypes at }
{
    match at {
        FailedAt::Pre => {}
        FailedAt::Post(service) => optional_id(service),
    }
}

fn hello_types(came: &HelloResult)
    ensures { IsHelloOfTypes came.now }
{
    match came {
        HelloResult::Ok(rtt, reply) => {
            let _number = *rtt;
            reply_types(reply.get());
        }
        HelloResult::Err(e) => error_types(e.get()),
    }
}

fn beaten_types(came: &BeatenResult)
    ensures { IsBeatenOfTypes came.now }
{
    match came {
        BeatenResult::Ok(reply, _) => reply_types(reply.get()),
        BeatenResult::Err(e) => error_types(e.get()),
        BeatenResult::Cancelled(e) => error_types(e.get()),
    }
}

fn topology_types(act: &Act)
    ensures { IsTopologyActOfTypes act.now }
{
    match act {
        Act::Hello(_, p, came) => {
            let _number = *p;
            hello_types(came);
        }
        Act::Beaten(_, p, n, came) => {
            let _numbers = (*p, *n);
            beaten_types(came);
        }
        Act::Beat(_, p) => {
            let _number = *p;
        }
        Act::Rtt(_, p, n) => {
            let _numbers = (*p, *n);
        }
        Act::ClusterTime(time) => {
            wide(Some(time.0));
        }
        Act::Want(w) => {
            let _number = *w;
        }
        Act::Unwant(w) => {
            let _number = *w;
        }
        _ => {}
    }
}

fn number(number: &u32)
    ensures { number.now < 2 ^ 32 }
{
    let _number = *number;
}

/// The numbers of a step are those of its types.
pub(crate) fn step_types(step: &Step)
    ensures { IsStepOfTypes step.now }
{
    let _moment = step.moment;
    match &step.act {
        Act::Open(o) => options(o.get()),
        Act::Request(r, _) => number(r),
        Act::Warm(r, _) => number(r),
        Act::Collect(r) => number(r),
        Act::GiveUp(r) => number(r),
        Act::Established(p, c, made) => {
            let _numbers = (*p, *c);
            established(made);
        }
        Act::Failed(p, c, at, e) => {
            let _numbers = (*p, *c);
            failed_at(*at);
            error_types(e.get());
        }
        Act::Error(r, e) => {
            number(r);
            error_types(e.get());
        }
        Act::Return(r, _) => number(r),
        Act::Pin(r) => number(r),
        Act::Replicate(p, c) => {
            let _numbers = (*p, *c);
        }
        Act::Take(r, p, c) => {
            let _numbers = (*r, *p, *c);
        }
        Act::Unpin(p, c) => {
            let _numbers = (*p, *c);
        }
        act => topology_types(act),
    }
}

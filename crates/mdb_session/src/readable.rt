//! Whether a line can spell what the last entry's step tells of.

ghost use Rattle.std.specs.Prelude.{◌≡◌, IfOk};
ghost use Rattle.mdb_lines.specs.Grammar.{is_hello, is_beaten};
ghost use Rattle.mdb_session.specs.Readable.{is_readable, IsLastReadable};

use crate::session::Session;
use mdb_base::OutOfMemory;
use mdb_log::{Act, BeatenResult, HelloResult};
use mdb_parts::is_error;
use mdb_replies::is_reply;
use std::alloc::Global;

fn is_hello(alloc: Global, came: &HelloResult) -> Result<bool, OutOfMemory>
    ensures { IfOk result (λ readable. readable ≡ is_hello came.now) }
{
    match came {
        HelloResult::Ok(_, reply) => is_reply(alloc, reply.get()),
        HelloResult::Err(error) => Ok(is_error(error.get())),
    }
}

fn is_beaten(alloc: Global, came: &BeatenResult) -> Result<bool, OutOfMemory>
    ensures { IfOk result (λ readable. readable ≡ is_beaten came.now) }
{
    match came {
        BeatenResult::Ok(reply, _) => is_reply(alloc, reply.get()),
        BeatenResult::Err(error) => Ok(is_error(error.get())),
        BeatenResult::Cancelled(error) => Ok(is_error(error.get())),
    }
}

fn is_readable(alloc: Global, act: &Act) -> Result<bool, OutOfMemory>
    ensures { IfOk result (λ readable. readable ≡ is_readable act.now) }
{
    match act {
        Act::Hello(_, _, came) => is_hello(alloc, came),
        Act::Beaten(_, _, _, came) => is_beaten(alloc, came),
        Act::Error(_, error) => Ok(is_error(error.get())),
        _ => Ok(true),
    }
}

impl Session {
    /// Whether a line can spell the reply, or the error of a hello, a check or an operation, that the last entry's step tells of, where it tells of
    /// one.
    pub fn is_readable(&self, alloc: Global) -> Result<bool, OutOfMemory>
        ensures { IfOk result (λ readable. IsLastReadable self.now readable) }
    {
        is_readable(alloc, &self.last().step.act)
    }
}

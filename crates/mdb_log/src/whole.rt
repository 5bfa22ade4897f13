//! Steps over the whole log that a core stands for.

ghost use Rattle.std.specs.Prelude.{◌≡◌, ◌≤◌, IsTrue, ◌∷◌, ◌++◌, [], IfOk, OnErr};
ghost use Rattle.mdb_log.specs.declared.log.Entry.{Entry};
ghost use Rattle.mdb_log.specs.Driver.{IsEntry, is_reply_to, is_in_time, IsThere};
ghost use Rattle.mdb_log.specs.Acts.{IsDriverAct};
ghost use Rattle.mdb_log.specs.History.{history_of, last_moment};

use super::{Core, Log, Reply, Step};
use mdb_base::OutOfMemory;
use std::alloc::Global;

/// A step of the core over the whole log that it stands for. It adds one entry. After `OutOfMemory` the log is as it was, and the core stands for it.
pub fn step_whole<C: Core>(
    core: &mut C,
    alloc: Global,
    log: &mut Log,
    seat: u32,
    step: &Step,
) -> Result<Reply, OutOfMemory>
    requires act { IsDriverAct step.now.act }
    requires stands { C.stands core.old log.old }
    ensures entry { IfOk result (λ reply. (e : Entry) × IsEntry seat step.now reply e × (log.new ≡ log.old ++ e ∷ [])) }
    ensures stands { C.stands core.new log.new }
    ensures kind { IfOk result (λ reply. IsTrue (is_reply_to step.now.act reply)) }
    ensures in_time { IfOk result (λ reply. last_moment (history_of log.old) ≤ step.now.moment → IsTrue (is_in_time step.now.act reply)) }
    ensures job { IfOk result (λ reply. IsThere (C.job_after log.new) reply) }
    ensures err_log { OnErr result (log.new ≡ log.old) }
{
    core.step(alloc, log, seat, step)
}

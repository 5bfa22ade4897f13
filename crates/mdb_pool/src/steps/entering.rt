//! A step that is not refused is done and logged, and its reply is answered beside.

ghost use Rattle.std.specs.Prelude.{◌≡◌, OnErr, IfOk, None};

use crate::kept::draft::Draft;
use crate::pool_core::PoolCore;
use crate::steps::stepping::usual_facts;
use crate::{Log, Reply, Step};
use mdb_base::OutOfMemory;
use std::alloc::Global;

impl Draft {
    ghost use Rattle.mdb_log.specs.Acts.{IsPoolAct};
    ghost use Rattle.mdb_pool.specs.Refusing.{refusal_now};
    ghost use Rattle.mdb_pool.specs.Planning.{DoesLogged};

    // Does the act of a step that is not refused, and logs it. Where there is no memory the log is as it was.
    fn enter_step(
        &mut self,
        alloc: Global,
        log: &mut Log,
        seat: u32,
        step: &Step,
    ) -> Result<Reply, OutOfMemory>
        requires act { IsPoolAct self.old.pool step.now.act }
        requires passes { refusal_now self.old step.now ≡ None }
        ensures does { IfOk result (λ reply. DoesLogged self.old self.new log.old log.new seat step.now reply) }
        ensures err { OnErr result (log.new ≡ log.old) }
        ensures inner { self.new.kept.inner ≡ self.old.kept.inner }
    {
        let mut facts = Vec::with_capacity(alloc, usual_facts(&step.act))?;
        let reply = self.accept(alloc, &mut facts, step)?;
        let told = log.answer(seat, step, reply, facts)?;
        Ok(told)
    }
}

impl PoolCore {
    ghost use Rattle.mdb_log.specs.Acts.{IsPoolAct};
    ghost use Rattle.mdb_pool.specs.Refusing.{refusal_now};
    ghost use Rattle.mdb_pool.specs.Planning.{DoesLogged};

    /// A step that the pool does not refuse is done in place, and logged in a log that may be that of more pools. Where there is no memory the pool and the log are as they were.
    pub fn enter_step(
        &mut self,
        alloc: Global,
        log: &mut Log,
        seat: u32,
        step: &Step,
    ) -> Result<Reply, OutOfMemory>
        requires act { IsPoolAct self.old.pool step.now.act }
        requires passes { refusal_now self.old step.now ≡ None }
        ensures does { IfOk result (λ reply. DoesLogged self.old self.new log.old log.new seat step.now reply) }
        ensures err_core { OnErr result (self.new ≡ self.old) }
        ensures err_log { OnErr result (log.new ≡ log.old) }
    {
        match self.draft.enter_step(alloc, log, seat, step) {
            Ok(reply) => {
                self.draft.commit();
                Ok(reply)
            }
            Err(e) => {
                self.draft.roll_back(alloc);
                Err(e)
            }
        }
    }
}

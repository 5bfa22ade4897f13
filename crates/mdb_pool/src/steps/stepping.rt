//! The steps of a pool.

ghost use Rattle.std.specs.Prelude.{◌≡◌, [], OnOk, OnErr, IfOk, All, List, Some, None, true};

use crate::kept::draft::Draft;
use crate::planning::Answered;
use crate::pool_core::PoolCore;
use crate::{Act, Log, Refused, Reply, Step};
use mdb_base::{Items, OutOfMemory};
use mdb_events::Fact;
use std::alloc::{AllocError, Global};

// How many facts the act makes as a rule.
pub(crate) fn usual_facts(act: &Act) -> usize {
    match act {
        Act::Request(_, _) => 3,
        Act::Established(_, _, _) => 2,
        Act::Collect(_) | Act::Claim => 0,
        _ => 1,
    }
}

impl Draft {
    ghost use Rattle.mdb_log.specs.Acts.{IsPoolAct};
    ghost use Rattle.mdb_log.specs.History.{Item};
    ghost use Rattle.mdb_pool.specs.Refusing.{refusal_now, tells_new, TellsNew};
    ghost use Rattle.mdb_pool.specs.Standing.{StandsFor, SameHome, Answers, Logs};
    ghost use Rattle.mdb_pool.specs.Planning.{Does, DoesOne, DoesAll, IsPrepared};

    // Why the step is refused.
    fn refusal_now(&self, step: &Step) -> Option<Refused>
        requires act { IsPoolAct self.now.pool step.now.act }
        requires new { tells_new self.now step.now.act ≡ true }
        ensures { result ≡ refusal_now self.now step.now }
    {
        self.body.refusal_now(step)
    }

    // Does the act of a step that is not refused.
    #[tactic(auto, unfolding(crate::specs::Now::queries))]
    pub(crate) fn accept(
        &mut self,
        alloc: Global,
        facts: &mut Vec<Fact>,
        step: &Step,
    ) -> Result<Reply, OutOfMemory>
        requires act { IsPoolAct self.old.pool step.now.act }
        requires passes { refusal_now self.old step.now ≡ None }
        ensures home { OnOk result (SameHome self.old self.new) }
        ensures last { OnOk result (self.new.kept.last ≡ step.now.moment) }
        ensures does { IfOk result (λ reply. Does self.old self.new facts.old.items facts.new.items step.now reply) }
        ensures inner { self.new.kept.inner ≡ self.old.kept.inner }
    {
        let moment = step.moment;
        match &step.act {
            Act::Request(request, _) => self.accept_request(alloc, facts, moment, *request),
            Act::Collect(request) => self.accept_collect(alloc, facts, moment, *request),
            Act::Claim => self.accept_claim(alloc, facts, moment),
            Act::GiveUp(request) => self.accept_give_up(alloc, facts, moment, *request),
            Act::Established(_, id, made) => {
                self.accept_established(alloc, facts, moment, *id, *made)
            }
            Act::Failed(_, id, at, cause) => {
                self.accept_failed(alloc, facts, moment, *id, *at, cause.get())
            }
            Act::Return(party, used) => self.accept_return(alloc, facts, moment, *party, *used),
            Act::Pin(party) => self.accept_pin(alloc, facts, moment, *party),
            Act::Replicate(_, id) => self.accept_replicate(alloc, facts, moment, *id),
            Act::Take(party, _, id) => self.accept_take(alloc, facts, moment, *party, *id),
            Act::Unpin(_, id) => self.accept_unpin(alloc, facts, moment, *id),
            Act::Ready(pool) => self.accept_ready(alloc, facts, moment, *pool),
            Act::Clear(pool, service, cause) => {
                self.accept_clear(alloc, facts, moment, *pool, *service, cause.get())
            }
            Act::Close(pool) => self.accept_close(alloc, facts, moment, *pool),
            Act::Warm(request, _) => self.accept_warm(alloc, facts, moment, *request),
            Act::Maintain(_) => self.accept_maintain(alloc, facts, moment),
            Act::Expire(_) => self.accept_expire(alloc, facts, moment),
            _ => unreachable!(),
        }
    }

    // Does the act of a step that is not refused: what it answers is told by the pool's history.
    pub(crate) fn perform(
        &mut self,
        alloc: Global,
        facts: &mut Vec<Fact>,
        step: &Step,
    ) -> Result<Reply, OutOfMemory>
        requires act { IsPoolAct self.old.pool step.now.act }
        requires passes { refusal_now self.old step.now ≡ None }
        ensures home { OnOk result (SameHome self.old self.new) }
        ensures answers { IfOk result (λ reply. (h : List Item) → StandsFor self.old h → Answers self.old self.new facts.old.items facts.new.items step.now reply h) }
        ensures inner { self.new.kept.inner ≡ self.old.kept.inner }
    {
        let reply = self.accept(alloc, facts, step)?;
        Ok(reply)
    }

    // Does the act of a step that is not refused, and appends its facts to those before it; where there is no memory these are as before.
    fn tell_step(
        &mut self,
        alloc: Global,
        facts: &mut Vec<Fact>,
        step: &Step,
    ) -> Result<Reply, OutOfMemory>
        requires act { IsPoolAct self.old.pool step.now.act }
        requires passes { refusal_now self.old step.now ≡ None }
        ensures home { OnOk result (SameHome self.old self.new) }
        ensures answers { IfOk result (λ reply. (h : List Item) → StandsFor self.old h → Answers self.old self.new facts.old.items facts.new.items step.now reply h) }
        ensures err { OnErr result (facts.new.items ≡ facts.old.items) }
        ensures inner { self.new.kept.inner ≡ self.old.kept.inner }
    {
        let mut made = Vec::new(alloc);
        let reply = self.perform(alloc, &mut made, step)?;
        match facts.append(&mut made) {
            Ok(()) => Ok(reply),
            Err(_) => {
                drop(reply);
                Err(OutOfMemory)
            }
        }
    }

    // Does the act of a step that is not refused, and logs it.
    fn log_step(
        &mut self,
        alloc: Global,
        log: &mut Log,
        seat: u32,
        step: &Step,
    ) -> Result<(), OutOfMemory>
        requires act { IsPoolAct self.old.pool step.now.act }
        requires passes { refusal_now self.old step.now ≡ None }
        ensures home { OnOk result (SameHome self.old self.new) }
        ensures logs { OnOk result ((h : List Item) → StandsFor self.old h → Logs self.old self.new log.old log.new seat step.now h) }
        ensures err { OnErr result (log.new ≡ log.old) }
        ensures inner { self.new.kept.inner ≡ self.old.kept.inner }
    {
        let mut facts = Vec::with_capacity(alloc, usual_facts(&step.act))?;
        let reply = self.perform(alloc, &mut facts, step)?;
        log.enter(seat, step, reply, facts)?;
        Ok(())
    }

    // Answers the step, and does it where it isn't refused.
    #[tactic(auto, unfolding(crate::specs::Now::queries))]
    pub(crate) fn answer(&mut self, alloc: Global, step: &Step) -> Result<Answered, OutOfMemory>
        requires act { IsPoolAct self.old.pool step.now.act }
        requires new { tells_new self.old step.now.act ≡ true }
        ensures home { OnOk result (SameHome self.old self.new) }
        ensures one { IfOk result (λ answered. DoesOne self.old self.new step.now answered (refusal_now self.old step.now)) }
        ensures answers { IfOk result (λ answered. (h : List Item) → StandsFor self.old h → Answers self.old self.new [] answered.facts step.now answered.reply h) }
        ensures inner { self.new.kept.inner ≡ self.old.kept.inner }
    {
        if let Some(why) = self.refusal_now(step) {
            return Ok(Answered {
                reply: Reply::Refused(why),
                facts: Items::new(Vec::new(alloc)),
            });
        }
        let mut facts = Vec::new(alloc);
        let reply = self.accept(alloc, &mut facts, step)?;
        Ok(Answered {
            reply,
            facts: Items::new(facts),
        })
    }

    // Answers steps one after another, and does each that isn't refused.
    pub(crate) fn answer_all(
        &mut self,
        alloc: Global,
        steps: &[Step],
    ) -> Result<Vec<Answered>, OutOfMemory>
        requires acts { All (λ step. IsPoolAct self.old.pool step.act) steps.now }
        requires new { TellsNew self.old steps.now }
        ensures home { OnOk result (SameHome self.old self.new) }
        ensures does { IfOk result (λ answers. DoesAll self.old self.new steps.now answers.items) }
        ensures prepared { IfOk result (λ answers. (h : List Item) → StandsFor self.old h → IsPrepared self.old self.new steps.now answers.items h) }
        ensures inner { self.new.kept.inner ≡ self.old.kept.inner }
    {
        let mut answers = Vec::new(alloc);
        for step in steps {
            let answered = self.answer(alloc, step)?;
            answers.push(answered)?;
        }
        Ok(answers)
    }
}

impl PoolCore {
    ghost use Rattle.mdb_pool.specs.Now.{alone_now};
    ghost use Rattle.mdb_pool.specs.Standing.{SameHome, StandsFor, Answers, Logs, Runs, RunsFront};
    ghost use Rattle.mdb_pool.specs.Refusing.{refusal_now, tells_new};
    ghost use Rattle.mdb_pool.specs.Planning.{Passes};
    ghost use Rattle.mdb_log.specs.Acts.{IsPoolAct};
    ghost use Rattle.mdb_log.specs.Legal.{NoneLeftWaiting};
    ghost use Rattle.mdb_log.specs.History.{Item, of_pool};

    // The step, which is not refused, is done. Where there is no memory the pool is as it was.
    fn done(
        &mut self,
        alloc: Global,
        facts: &mut Vec<Fact>,
        step: &Step,
    ) -> Result<Reply, OutOfMemory>
        requires act { IsPoolAct self.old.pool step.now.act }
        requires passes { refusal_now self.old step.now ≡ None }
        ensures home { OnOk result (SameHome self.old self.new) }
        ensures answers { IfOk result (λ reply. (h : List Item) → StandsFor self.old h → Answers self.old self.new facts.old.items facts.new.items step.now reply h) }
        ensures err_core { OnErr result (self.new ≡ self.old) }
        ensures err_facts { OnErr result (facts.new.items ≡ facts.old.items) }
        ensures passes { OnErr result (Passes self.old step.now) }
    {
        match self.draft.tell_step(alloc, facts, step) {
            Ok(reply) => {
                self.draft.commit();
                Ok(reply)
            }
            Err(e) => {
                self.draft.roll_back(alloc);
                Err(e)
            }
        }
    }

    // Refuses the step, or does what it says.
    pub(crate) fn attempt(
        &mut self,
        alloc: Global,
        facts: &mut Vec<Fact>,
        step: &Step,
    ) -> Result<Reply, OutOfMemory>
        requires act { IsPoolAct self.old.pool step.now.act }
        requires new { tells_new self.old step.now.act ≡ true }
        ensures home { OnOk result (SameHome self.old self.new) }
        ensures answers { IfOk result (λ reply. (h : List Item) → StandsFor self.old h → Answers self.old self.new facts.old.items facts.new.items step.now reply h) }
        ensures err_core { OnErr result (self.new ≡ self.old) }
        ensures err_facts { OnErr result (facts.new.items ≡ facts.old.items) }
        ensures passes { OnErr result (Passes self.old step.now) }
    {
        if let Some(why) = self.refuses(step) {
            return Ok(Reply::Refused(why));
        }
        self.done(alloc, facts, step)
    }

    // Does what the step says, which is not refused, and logs it.
    fn enter(
        &mut self,
        alloc: Global,
        log: &mut Log,
        seat: u32,
        step: &Step,
    ) -> Result<(), OutOfMemory>
        requires act { IsPoolAct self.old.pool step.now.act }
        requires passes { refusal_now self.old step.now ≡ None }
        ensures home { OnOk result (SameHome self.old self.new) }
        ensures logs { OnOk result ((h : List Item) → StandsFor self.old h → Logs self.old self.new log.old log.new seat step.now h) }
        ensures err_core { OnErr result (self.new ≡ self.old) }
        ensures err_log { OnErr result (log.new ≡ log.old) }
    {
        match self.draft.log_step(alloc, log, seat, step) {
            Ok(()) => {
                self.draft.commit();
                Ok(())
            }
            Err(e) => {
                self.draft.roll_back(alloc);
                Err(e)
            }
        }
    }

    // The refused step gets its entry, and nothing else changes.
    fn refuse(
        &self,
        alloc: Global,
        log: &mut Log,
        seat: u32,
        step: &Step,
        why: Refused,
    ) -> Result<(), AllocError>
        requires { refusal_now self.now step.now ≡ Some why }
        ensures logs { OnOk result ((h : List Item) → StandsFor self.now h → Logs self.now self.now log.old log.new seat step.now h) }
        ensures err { OnErr result (log.new ≡ log.old) }
    {
        log.enter(seat, step, Reply::Refused(why), Vec::new(alloc))?;
        Ok(())
    }

    /// One step of the pool, in place. Where there is no memory the pool and the log are as they were. A refused one takes memory for its entry alone.
    pub fn step(
        &mut self,
        alloc: Global,
        log: &mut Log,
        seat: u32,
        step: &Step,
    ) -> Result<(), OutOfMemory>
        requires alone { alone_now self.old ≡ true }
        requires act { IsPoolAct self.old.pool step.now.act }
        ensures home { OnOk result (SameHome self.old self.new) }
        ensures logs { OnOk result ((h : List Item) → StandsFor self.old h → Logs self.old self.new log.old log.new seat step.now h) }
        ensures err_core { OnErr result (self.new ≡ self.old) }
        ensures err_log { OnErr result (log.new ≡ log.old) }
    {
        if let Some(why) = self.refuses(step) {
            self.refuse(alloc, log, seat, step, why)?;
            return Ok(());
        }
        self.enter(alloc, log, seat, step)
    }

    /// Steps one after another: the log gets the answer to each after those before it, and these entries are legal. After `OutOfMemory` it has got
    /// those of the first steps, for which the pool stands.
    pub fn run(
        &mut self,
        alloc: Global,
        log: &mut Log,
        seat: u32,
        steps: &[Step],
    ) -> Result<(), OutOfMemory>
        requires alone { alone_now self.old ≡ true }
        requires acts { All (λ step. IsPoolAct self.old.pool step.act) steps.now }
        ensures home { SameHome self.old self.new }
        ensures legal { OnOk result ((h : List Item) → StandsFor self.old h → NoneLeftWaiting self.old.options (of_pool self.old.pool h) → Runs self.old self.new log.old log.new seat steps.now h) }
        ensures begun { OnErr result ((h : List Item) → StandsFor self.old h → NoneLeftWaiting self.old.options (of_pool self.old.pool h) → RunsFront self.old self.new log.old log.new seat steps.now h) }
    {
        for step in steps {
            self.step(alloc, log, seat, step)?;
        }
        Ok(())
    }
}

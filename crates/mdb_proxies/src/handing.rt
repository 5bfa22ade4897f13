//! What a proxy hands to its core.

ghost use Rattle.std.specs.Prelude.{◌≡◌, ℕ, ◌<◌, ◌≤◌, ◌+◌, ◌-◌, List, [], ◌∷◌, ◌++◌, true, false, not, ◌&&◌, ◌||◌, length, slice_index_or, IfOk, OnOk, OnErr};
ghost use Rattle.std.specs.List.{HoldsAt};
ghost use Rattle.mdb_log.specs.declared.log.Entry.{Entry};
ghost use Rattle.mdb_log.specs.declared.step.Act.TheVariants.{Request};
ghost use Rattle.mdb_log.specs.Acts.{IsDriverAct};
ghost use Rattle.mdb_log.specs.Driver.{IsEntry, is_refusal};
ghost use Rattle.mdb_log.specs.declared.step.Step.{Step};
ghost use Rattle.mdb_proxies.specs.Handing.{Entered, IsRequestAt};
ghost use Rattle.mdb_proxies.specs.Charge.{requests};
ghost use Rattle.mdb_proxies.specs.Entries.{GoesOn, Enters};
ghost use Rattle.mdb_proxies.specs.Tables.{Sound, KeptBy, NotedBy, some_may_go, IsOnly, KeepsCharge};

use crate::books::{Books, is_refused};
use crate::freed::{Freed, next};
use mdb_base::{Moment, OutOfMemory};
use mdb_log::{Act, Core, Entry, Log, Reply, Step, step_whole};
use std::alloc::Global;

// The parts of a proxy.
#[derive(Drop)]
pub struct ProxyState<C: Core> {
    pub core: C,
    pub log: Log,
    pub shares: Vec<u32>,
    pub books: Books,
    // Some ask lags.
    pub behind: bool,
}

// What came of handing on all that lags.
#[derive(Clone, Copy)]
pub struct Handed {
    pub some: bool,
    // Memory ran out before all was handed on.
    pub short: bool,
}

fn newest(log: &Log) -> &Entry
    requires { 0 < length log.now }
    ensures { result.now ≡ slice_index_or log.now (length log.now - 1) result.now }
{
    let entries = log.entries();
    &entries[entries.len() - 1]
}

// One step of the core, and what it makes of the books. Answers where it freed some of a share, too.
fn enter<C: Core>(
    core: &mut C,
    log: &mut Log,
    books: &mut Books,
    alloc: Global,
    step: &Step,
) -> Result<(Reply, Freed), OutOfMemory>
    requires act { IsDriverAct step.now.act }
    requires stands { C.stands core.old log.old }
    requires keeps { KeptBy log.old books.old }
    requires noted { NotedBy log.old books.old }
    ensures stands { C.stands core.new log.new }
    ensures keeps { KeptBy log.new books.new }
    ensures noted { NotedBy log.new books.new }
    ensures asks { books.new.asks ≡ books.old.asks }
    ensures known { books.new.known ≡ books.old.known }
    ensures ok { IfOk result (λ r. Entered step.now r.0 log.old log.new books.old.standing.items books.new.standing.items) }
    ensures freed { IfOk result (λ r. KeepsCharge r.1 books.old.standing.items books.new.standing.items) }
    ensures err { OnErr result ((log.new ≡ log.old) × (books.new ≡ books.old)) }
{
    let at = log.len();
    let reply = step_whole(core, alloc, log, 0, step)?;
    let freed = books.take_entry(newest(log), at);
    Ok((reply, freed))
}

// Hands on the standing ask at this place.
fn hand_on<C: Core>(
    core: &mut C,
    log: &mut Log,
    books: &mut Books,
    alloc: Global,
    moment: Moment,
    at: usize,
) -> Result<(Reply, Freed), OutOfMemory>
    requires within { at < length books.old.standing.items }
    requires stands { C.stands core.old log.old }
    requires keeps { KeptBy log.old books.old }
    requires noted { NotedBy log.old books.old }
    ensures stands { C.stands core.new log.new }
    ensures keeps { KeptBy log.new books.new }
    ensures noted { NotedBy log.new books.new }
    ensures asks { books.new.asks ≡ books.old.asks }
    ensures known { books.new.known ≡ books.old.known }
    ensures ok { IfOk result (λ r. (step : Step) × IsRequestAt moment books.old.standing.items at step × Entered step r.0 log.old log.new books.old.standing.items books.new.standing.items) }
    ensures freed { IfOk result (λ r. KeepsCharge r.1 books.old.standing.items books.new.standing.items) }
    ensures err { OnErr result ((log.new ≡ log.old) × (books.new ≡ books.old)) }
{
    let one = &books.standing.as_slice()[at];
    let request = one.request;
    let address = one.address.clone()?;
    let step = Step {
        moment,
        act: Act::Request(request, address),
    };
    let entered = enter(core, log, books, alloc, &step);
    drop(step);
    entered
}

impl<C: Core> ProxyState<C> {
    // Hands on the asks that lag, until none is left or memory runs out. Only those lag that stand where some of a share was freed.
    pub fn go_on(&mut self, alloc: Global, moment: Moment, freed: Freed) -> Handed
        requires stands { C.stands self.old.core self.old.log }
        requires sound { Sound self.old.log self.old.shares.items self.old.books }
        requires only { IsOnly self.old.shares.items self.old.books.standing.items freed }
        ensures stands { C.stands self.new.core self.new.log }
        ensures sound { Sound self.new.log self.new.shares.items self.new.books }
        ensures shares { self.new.shares ≡ self.old.shares }
        ensures asks { self.new.books.asks ≡ self.old.books.asks }
        ensures behind { self.new.behind ≡ some_may_go self.new.shares.items self.new.books.standing.items }
        ensures short { result.short ≡ true → self.new.behind ≡ true }
        ensures none { result.some ≡ false → (self.new.log ≡ self.old.log) × (self.new.books ≡ self.old.books) }
        ensures goes_on { GoesOn moment self.old.shares.items self.old.books.asks.items self.old.log self.new.log }
    {
        let mut some = false;
        let mut freed = freed;
        while let Some(at) = next(self.shares.as_slice(), &self.books.standing, &freed) {
            let handed = hand_on(
                &mut self.core,
                &mut self.log,
                &mut self.books,
                alloc,
                moment,
                at,
            );
            match handed {
                Ok((reply, more)) => {
                    drop(reply);
                    freed = freed.or(more);
                }
                Err(OutOfMemory) => {
                    self.behind = true;
                    drop(freed);
                    return Handed { some, short: true };
                }
            }
            some = true;
        }
        self.behind = false;
        drop(freed);
        Handed { some, short: false }
    }

    // Goes on where some ask lags. `OutOfMemory` where none was handed on for lack of memory.
    pub fn catch_up(&mut self, alloc: Global, moment: Moment) -> Result<(), OutOfMemory>
        requires stands { C.stands self.old.core self.old.log }
        requires sound { Sound self.old.log self.old.shares.items self.old.books }
        ensures stands { C.stands self.new.core self.new.log }
        ensures sound { Sound self.new.log self.new.shares.items self.new.books }
        ensures shares { self.new.shares ≡ self.old.shares }
        ensures asks { self.new.books.asks ≡ self.old.books.asks }
        ensures behind { (self.old.behind ≡ true → self.new.behind ≡ some_may_go self.new.shares.items self.new.books.standing.items) × (self.old.behind ≡ false → (self.new.behind ≡ false) × (self.new.log ≡ self.old.log) × (self.new.books ≡ self.old.books)) }
        ensures goes_on { GoesOn moment self.old.shares.items self.old.books.asks.items self.old.log self.new.log }
        ensures err { OnErr result ((self.new.log ≡ self.old.log) × (self.new.books ≡ self.old.books) × (self.old.behind ≡ true) × (self.new.behind ≡ true)) }
    {
        if !self.behind {
            return Ok(());
        }
        let handed = self.go_on(alloc, moment, Freed::Anywhere);
        if handed.short && !handed.some {
            return Err(OutOfMemory);
        }
        Ok(())
    }

    // Goes on, if so, where some of a share was freed.
    fn resume(&mut self, alloc: Global, moment: Moment, goes: bool, freed: Freed)
        requires stands { C.stands self.old.core self.old.log }
        requires sound { Sound self.old.log self.old.shares.items self.old.books }
        requires only { goes ≡ true → IsOnly self.old.shares.items self.old.books.standing.items freed }
        requires behind { goes ≡ false → self.old.behind ≡ some_may_go self.old.shares.items self.old.books.standing.items }
        ensures stands { C.stands self.new.core self.new.log }
        ensures sound { Sound self.new.log self.new.shares.items self.new.books }
        ensures shares { self.new.shares ≡ self.old.shares }
        ensures asks { self.new.books.asks ≡ self.old.books.asks }
        ensures behind { self.new.behind ≡ some_may_go self.new.shares.items self.new.books.standing.items }
        ensures goes_on { GoesOn moment self.old.shares.items self.old.books.asks.items self.old.log self.new.log }
        ensures rests { goes ≡ false → self.new.log ≡ self.old.log }
    {
        if goes {
            self.go_on(alloc, moment, freed);
        } else {
            drop(freed);
        }
    }

    // A step of the core that its caller made, and what can be handed on after it.
    pub fn pass(&mut self, alloc: Global, moment: Moment, act: Act) -> Result<Reply, OutOfMemory>
        requires act { IsDriverAct act }
        requires own { (r : ℕ) → requests r act ≡ false }
        requires stands { C.stands self.old.core self.old.log }
        requires sound { Sound self.old.log self.old.shares.items self.old.books }
        requires behind { self.old.behind ≡ some_may_go self.old.shares.items self.old.books.standing.items }
        ensures stands { C.stands self.new.core self.new.log }
        ensures sound { Sound self.new.log self.new.shares.items self.new.books }
        ensures shares { self.new.shares ≡ self.old.shares }
        ensures asks { self.new.books.asks ≡ self.old.books.asks }
        ensures behind { self.new.behind ≡ some_may_go self.new.shares.items self.new.books.standing.items }
        ensures ok { IfOk result (λ reply. Enters moment self.old.shares.items self.old.books.asks.items (record { moment = moment; act = act }) reply self.old.log self.new.log) }
        ensures err { OnErr result (self.new.log ≡ self.old.log) }
    {
        let step = Step { moment, act };
        let entered = enter(&mut self.core, &mut self.log, &mut self.books, alloc, &step);
        drop(step);
        let (reply, freed) = match entered {
            Ok(entered) => entered,
            Err(OutOfMemory) => return Err(OutOfMemory),
        };
        let goes = !is_refused(&reply);
        let freed = freed.or_anywhere(self.behind);
        self.resume(alloc, moment, goes, freed);
        Ok(reply)
    }

    // The newest ask, which stands last, is handed on.
    pub fn hand_on_newest(
        &mut self,
        alloc: Global,
        moment: Moment,
    ) -> Result<(Reply, Freed), OutOfMemory>
        requires some { 0 < length self.old.books.standing.items }
        requires stands { C.stands self.old.core self.old.log }
        requires keeps { KeptBy self.old.log self.old.books }
        requires noted { NotedBy self.old.log self.old.books }
        ensures stands { C.stands self.new.core self.new.log }
        ensures keeps { KeptBy self.new.log self.new.books }
        ensures noted { NotedBy self.new.log self.new.books }
        ensures shares { self.new.shares ≡ self.old.shares }
        ensures asks { self.new.books.asks ≡ self.old.books.asks }
        ensures known { self.new.books.known ≡ self.old.books.known }
        ensures behind { self.new.behind ≡ self.old.behind }
        ensures ok { IfOk result (λ r. (step : Step) × IsRequestAt moment self.old.books.standing.items (length self.old.books.standing.items - 1) step × Entered step r.0 self.old.log self.new.log self.old.books.standing.items self.new.books.standing.items) }
        ensures freed { IfOk result (λ r. KeepsCharge r.1 self.old.books.standing.items self.new.books.standing.items) }
        ensures err { OnErr result ((self.new.log ≡ self.old.log) × (self.new.books ≡ self.old.books)) }
    {
        let at = self.books.standing.as_slice().len() - 1;
        hand_on(
            &mut self.core,
            &mut self.log,
            &mut self.books,
            alloc,
            moment,
            at,
        )
    }
}

//! What a thread with a role does by its handle: it establishes connections, keeps time, follows the topology, or stops the driver.

ghost use Rattle.std.specs.Prelude.{◌≡◌, ◌∷◌, true, [], ⊤, IfSome, IfOk, OnOk, OnErr};
ghost use Rattle.mdb_log.specs.Acts.{IsDriverAct};
ghost use Rattle.mdb_log.specs.declared.log.Entry.{Entry};
ghost use Rattle.mdb_log.specs.declared.step.Act.TheVariants.{Stop, Want};
ghost use Rattle.mdb_log.specs.declared.reply.Reply.TheVariants.{Count};
ghost use Rattle.mdb_journal.specs.Entries.{HasStopped};
ghost use Rattle.mdb_handles.specs.Handles.{IsSameHandle};
ghost use Rattle.mdb_workers.specs.Making.{Made, OneMore};
ghost use Rattle.mdb_shared.specs.Seats.{HasCore};
ghost use Rattle.mdb_workers.specs.Ticking.{KeptTime, Ticked, TickedInPart};
ghost use Rattle.mdb_handles.specs.Watching.{Shows, with_mark, wanting, Retracted, WaitedOn};
ghost use Rattle.mdb_workers.specs.Working.{ReportsLeft, Served, Worked};

use crate::handle::Handle;
use crate::topology_state::TopologyState;
use crate::watching::{TopologyWatcher, dismiss};
use mdb_base::{Moment, OutOfMemory};
use mdb_log::{Core, Step};
use mdb_workers::{
    Establisher, Gate, Timer, Work, WorkError, keep_time, keep_time_by, report_left, serve, stop,
    tick, work,
};
use std::rt::Clock;
use std::sync::Wait;
use std::time::{Duration, Instant};

impl<'a, C: Core, R: Wait> Handle<'a, C, R> {
    /// Claims connections, establishes them and reports them, as `work` does.
    pub fn work<E: Establisher, G: Gate>(
        &mut self,
        establisher: &mut E,
        gate: &mut G,
        budget: u32,
    ) -> Result<Work, WorkError>
        ensures same { IsSameHandle self.old self.new }
        ensures jobs { Worked C.job_after C.stands budget self.old.seat self.new.seat (E.calls establisher.old) (E.calls establisher.new) result }
    {
        work(&self.access, &mut self.seat, establisher, gate, budget)
    }

    /// Reports what `work` left where memory runs out, as the function of that name does.
    pub fn report_left(&mut self, pool: u32, id: u32, step: Option<Step>)
        requires act { IfSome step (λ s. IsDriverAct s.act) }
        ensures same { IsSameHandle self.old self.new }
        ensures entry { (e : Entry) × ReportsLeft pool id step e × Made C.stands self.old.seat self.new.seat (e ∷ []) }
    {
        report_left(&self.access, &mut self.seat, pool, id, step)
    }

    /// Establishes connections until the driver stops, as `serve` does.
    pub fn serve<E: Establisher, G: Gate>(&mut self, establisher: &mut E, gate: &mut G)
        ensures same { IsSameHandle self.old self.new }
        ensures served { Served C.job_after C.stands self.old.seat self.new.seat (E.calls establisher.old) (E.calls establisher.new) }
        ensures stopped { HasStopped self.new.seat.seen }
        ensures fits { HasCore C.stands self.new.seat }
    {
        serve(&self.access, &mut self.seat, establisher, gate)
    }

    /// Lets the moment enter, and does what is due then, as `tick` does.
    pub fn tick(&mut self, moment: Moment) -> Result<(), OutOfMemory>
        ensures same { IsSameHandle self.old self.new }
        ensures ok { OnOk result (Ticked C.stands C.described moment self.old.seat self.new.seat) }
        ensures err { OnErr result (TickedInPart C.stands moment self.old.seat self.new.seat) }
    {
        tick(&self.access, &mut self.seat, moment)
    }

    /// Stops the driver, as `stop` does.
    pub fn stop(&mut self)
        ensures same { IsSameHandle self.old self.new }
        ensures entry { (e : Entry) × (e.step.act ≡ Stop) × Made C.stands self.old.seat self.new.seat (e ∷ []) }
    {
        stop(&self.access, &mut self.seat)
    }

    /// What is known of the topology now, which the watcher has seen then, as `observe_latest` does.
    pub fn observe_latest(
        &mut self,
        watcher: &mut TopologyWatcher,
    ) -> Result<TopologyState, OutOfMemory>
        ensures same { IsSameHandle self.old self.new }
        ensures saw { Made C.stands self.old.seat self.new.seat [] }
        ensures fits { HasCore C.stands self.new.seat }
        ensures state { IfOk result (Shows (C.described self.new.seat.seen) (C.publications self.new.seat.seen)) }
        ensures marked { IfOk result (λ state. watcher.new ≡ with_mark watcher.old state.published) }
        ensures err { OnErr result (watcher.new ≡ watcher.old) }
    {
        watcher.observe_latest(&self.access, &mut self.seat)
    }

    /// Sleeps until the topology was published since what the watcher has seen, or the driver has stopped, as `await_update` does.
    pub fn await_update(&mut self, watcher: &mut TopologyWatcher) -> Result<bool, OutOfMemory>
        ensures same { IsSameHandle self.old self.new }
        ensures found { IfOk result (WaitedOn C.stands C.publications self.old.seat self.new.seat watcher.old watcher.new) }
        ensures err { OnErr result (Made C.stands self.old.seat self.new.seat [] × (watcher.new ≡ watcher.old)) }
    {
        watcher.await_update(&self.access, &mut self.seat)
    }

    /// Asks that the servers are checked at once, for the watcher, as `request_immediate_check` does.
    pub fn request_immediate_check(
        &mut self,
        watcher: &mut TopologyWatcher,
    ) -> Result<u64, OutOfMemory>
        ensures same { IsSameHandle self.old self.new }
        ensures ok { IfOk result (λ count. OneMore C.stands self.old.seat self.new.seat (Want watcher.old.number) (Count count)) }
        ensures wants { IfOk result (λ count. watcher.new ≡ wanting watcher.old true) }
        ensures err { OnErr result (Made C.stands self.old.seat self.new.seat [] × (watcher.new ≡ watcher.old)) }
    {
        watcher.request_immediate_check(&self.access, &mut self.seat)
    }

    /// Takes the watcher's request for checks back, where one stands, and lets the watcher go. It tries again while there is no memory.
    pub fn dismiss(&mut self, watcher: TopologyWatcher)
        ensures same { IsSameHandle self.old self.new }
        ensures retracted { Retracted C.stands self.old.seat self.new.seat watcher }
    {
        dismiss(&self.access, &mut self.seat, watcher)
    }
}

impl<'a, C: Core, R: Wait + Clock> Handle<'a, C, R> {
    /// Ticks each so long until the driver stops, as `keep_time` does.
    pub fn keep_time(&mut self, start: Instant, every: Duration)
        ensures same { IsSameHandle self.old self.new }
        ensures ticked { KeptTime C.stands (λ moment. ⊤) self.old.seat self.new.seat }
        ensures stopped { HasStopped self.new.seat.seen }
        ensures fits { HasCore C.stands self.new.seat }
    {
        keep_time(&self.access, &mut self.seat, start, every)
    }

    /// Ticks each so long until the driver stops, at the moments that the timer tells, as `keep_time_by` does.
    pub fn keep_time_by<T: Timer>(&mut self, timer: &T, every: Duration)
        ensures same { IsSameHandle self.old self.new }
        ensures ticked { KeptTime C.stands (T.tells timer.now) self.old.seat self.new.seat }
        ensures stopped { HasStopped self.new.seat.seen }
        ensures fits { HasCore C.stands self.new.seat }
    {
        keep_time_by(&self.access, &mut self.seat, timer, every)
    }
}

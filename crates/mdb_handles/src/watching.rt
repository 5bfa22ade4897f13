//! Watchers of a topology (SDAM, "Monitoring": what applications see of it).

ghost use Rattle.std.specs.Prelude.{◌≡◌, true, false, [], IfOk, OnOk, OnErr};
ghost use Rattle.mdb_log.specs.declared.step.Act.TheVariants.{Want, Unwant};
ghost use Rattle.mdb_log.specs.declared.reply.Reply.TheVariants.{Count};
ghost use Rattle.mdb_shared.specs.Seats.{HasCore};
ghost use Rattle.mdb_workers.specs.Making.{Made, OneMore};
ghost use Rattle.mdb_handles.specs.Watching.{Shows, new_watcher, with_mark, wanting, IsWish, Retracted, Waited, WaitedOn};

use crate::topology_state::{Kind, Publications, State, Time, TopologyState, Updates};
use mdb_base::{ClusterTime, OutOfMemory};
use mdb_describe::TopologyType;
use mdb_log::{Act, Core, Reply, Step};
use mdb_shared::Seat;
use mdb_workers::{Access, add, glance, pause};
use std::sync::Wait;

/// Watches the topology of a driver. It knows which publication it has seen, and whether it asked for checks at once. One that is only dropped leaves that
/// request standing in the driver: `dismiss` takes it back and lets the watcher go.
#[derive(Debug, Drop)]
pub struct TopologyWatcher {
    number: u32,
    seen: u64,
    wants: bool,
}

// One step of a watcher: the reply counts those that want checks.
fn counted<C: Core, R: Wait>(
    access: &Access<'_, C, R>,
    seat: &mut Seat<C>,
    act: Act,
) -> Result<u64, OutOfMemory>
    requires own { seat.old.driver ≡ access.now.driver.now.id }
    requires act { IsWish act }
    ensures ok { IfOk result (λ count. OneMore C.stands seat.old seat.new act (Count count)) }
    ensures err { OnErr result (Made C.stands seat.old seat.new []) }
{
    match add(access, seat, Step { moment: 0, act })? {
        Reply::Count(count) => Ok(count),
        _ => unreachable!(),
    }
}

impl TopologyWatcher {
    /// A watcher of this number that has seen no publication and asked for nothing.
    pub fn new(number: u32) -> TopologyWatcher
        ensures { result ≡ new_watcher number }
    {
        TopologyWatcher {
            number,
            seen: 0,
            wants: false,
        }
    }

    /// A watcher of another number that has seen as much, and asked for nothing.
    pub fn copy(&self, number: u32) -> TopologyWatcher
        ensures { result ≡ with_mark (new_watcher number) self.now.seen }
    {
        TopologyWatcher {
            number,
            seen: self.seen,
            wants: false,
        }
    }

    /// What is known of the topology now.
    pub fn peek_latest<C: Core, R: Wait>(
        &self,
        access: &Access<'_, C, R>,
        seat: &mut Seat<C>,
    ) -> Result<TopologyState, OutOfMemory>
        requires own { seat.old.driver ≡ access.now.driver.now.id }
        ensures saw { Made C.stands seat.old seat.new [] }
        ensures fits { HasCore C.stands seat.new }
        ensures state { IfOk result (Shows (C.described seat.new.seen) (C.publications seat.new.seen)) }
    {
        glance(access, seat, &State)
    }

    /// What is published last, which the watcher has seen then.
    pub fn observe_latest<C: Core, R: Wait>(
        &mut self,
        access: &Access<'_, C, R>,
        seat: &mut Seat<C>,
    ) -> Result<TopologyState, OutOfMemory>
        requires own { seat.old.driver ≡ access.now.driver.now.id }
        ensures saw { Made C.stands seat.old seat.new [] }
        ensures fits { HasCore C.stands seat.new }
        ensures state { IfOk result (Shows (C.described seat.new.seen) (C.publications seat.new.seen)) }
        ensures marked { IfOk result (λ state. self.new ≡ with_mark self.old state.published) }
        ensures err { OnErr result (self.new ≡ self.old) }
    {
        let state = self.peek_latest(access, seat)?;
        self.seen = state.published;
        Ok(state)
    }

    /// Asks that the servers are checked at once, and gives the number of watchers that do.
    pub fn request_immediate_check<C: Core, R: Wait>(
        &mut self,
        access: &Access<'_, C, R>,
        seat: &mut Seat<C>,
    ) -> Result<u64, OutOfMemory>
        requires own { seat.old.driver ≡ access.now.driver.now.id }
        ensures ok { IfOk result (λ count. OneMore C.stands seat.old seat.new (Want self.old.number) (Count count)) }
        ensures wants { IfOk result (λ count. self.new ≡ wanting self.old true) }
        ensures err { OnErr result (Made C.stands seat.old seat.new [] × (self.new ≡ self.old)) }
    {
        let count = counted(access, seat, Act::Want(self.number))?;
        self.wants = true;
        Ok(count)
    }

    /// Takes its request for checks back, where one stands. A watcher that isn't to ask any more does this before it is dropped: the request stands
    /// in the driver, and not in the watcher.
    pub fn retract<C: Core, R: Wait>(
        &mut self,
        access: &Access<'_, C, R>,
        seat: &mut Seat<C>,
    ) -> Result<(), OutOfMemory>
        requires own { seat.old.driver ≡ access.now.driver.now.id }
        ensures ok { OnOk result (Retracted C.stands seat.old seat.new self.old × (self.new ≡ wanting self.old false)) }
        ensures err { OnErr result (Made C.stands seat.old seat.new [] × (self.new ≡ self.old)) }
    {
        if self.wants {
            counted(access, seat, Act::Unwant(self.number))?;
            self.wants = false;
        }
        Ok(())
    }

    // A later publication was found: no longer asks for checks, and has seen it.
    fn mark<C: Core, R: Wait>(
        &mut self,
        access: &Access<'_, C, R>,
        seat: &mut Seat<C>,
        published: u64,
    ) -> Result<(), OutOfMemory>
        requires own { seat.old.driver ≡ access.now.driver.now.id }
        ensures ok { OnOk result (Retracted C.stands seat.old seat.new self.old × (self.new ≡ with_mark (wanting self.old false) published)) }
        ensures err { OnErr result (Made C.stands seat.old seat.new [] × (self.new ≡ self.old)) }
    {
        self.retract(access, seat)?;
        self.seen = published;
        Ok(())
    }

    /// Looks up to so many times whether the topology was published since what the watcher has seen. Where it was, the watcher has seen it then,
    /// and no longer asks for checks.
    pub fn wait_for_update<C: Core, R: Wait>(
        &mut self,
        access: &Access<'_, C, R>,
        seat: &mut Seat<C>,
        turns: u32,
    ) -> Result<bool, OutOfMemory>
        requires own { seat.old.driver ≡ access.now.driver.now.id }
        ensures found { IfOk result (Waited C.stands C.publications turns seat.old seat.new self.old self.new) }
        ensures err { OnErr result (Made C.stands seat.old seat.new [] × (self.new ≡ self.old)) }
    {
        for _ in 0..turns {
            let published = glance(access, seat, &Publications);
            if published > self.seen {
                self.mark(access, seat, published)?;
                return Ok(true);
            }
        }
        Ok(false)
    }

    /// Sleeps until the topology was published since what the watcher has seen, and then does as `wait_for_update`; or until the driver has stopped,
    /// with nothing published since, and answers false.
    pub fn await_update<C: Core, R: Wait>(
        &mut self,
        access: &Access<'_, C, R>,
        seat: &mut Seat<C>,
    ) -> Result<bool, OutOfMemory>
        requires own { seat.old.driver ≡ access.now.driver.now.id }
        ensures found { IfOk result (WaitedOn C.stands C.publications seat.old seat.new self.old self.new) }
        ensures err { OnErr result (Made C.stands seat.old seat.new [] × (self.new ≡ self.old)) }
    {
        for _ in access.rt.forever() {
            let (count, published, is_over) = glance(access, seat, &Updates);
            if published > self.seen {
                self.mark(access, seat, published)?;
                return Ok(true);
            }
            if is_over {
                return Ok(false);
            }
            access.driver.sleep(access.rt, count);
        }
        unreachable!()
    }

    /// The type of the topology.
    pub fn topology_type<C: Core, R: Wait>(
        &self,
        access: &Access<'_, C, R>,
        seat: &mut Seat<C>,
    ) -> TopologyType
        requires own { seat.old.driver ≡ access.now.driver.now.id }
        ensures saw { Made C.stands seat.old seat.new [] }
        ensures fits { HasCore C.stands seat.new }
        ensures kind { result ≡ (C.described seat.new.seen).topology_type }
    {
        glance(access, seat, &Kind)
    }

    /// The time of the cluster, where one was told.
    pub fn cluster_time<C: Core, R: Wait>(
        &self,
        access: &Access<'_, C, R>,
        seat: &mut Seat<C>,
    ) -> Option<ClusterTime>
        requires own { seat.old.driver ≡ access.now.driver.now.id }
        ensures saw { Made C.stands seat.old seat.new [] }
        ensures fits { HasCore C.stands seat.new }
        ensures time { result ≡ (C.described seat.new.seen).cluster_time }
    {
        glance(access, seat, &Time)
    }
}

/// Takes the watcher's request for checks back, where one stands, and lets the watcher go. It tries again while there is no memory.
pub fn dismiss<C: Core, R: Wait>(
    access: &Access<'_, C, R>,
    seat: &mut Seat<C>,
    mut watcher: TopologyWatcher,
)
    requires own { seat.old.driver ≡ access.now.driver.now.id }
    ensures same { (seat.new.driver ≡ seat.old.driver) × (seat.new.number ≡ seat.old.number) }
    ensures retracted { Retracted C.stands seat.old seat.new watcher }
{
    for _ in access.rt.forever() {
        match watcher.retract(access, seat) {
            Ok(()) => return,
            Err(OutOfMemory) => pause(access, seat),
        }
    }
    unreachable!()
}

//! Who takes the entries of a shared driver and hands them on.

ghost use Rattle.std.specs.Prelude.{◌≡◌, ◌+◌, ◌<◌, ◌^◌, ◌∷◌, ◌++◌, [], length, drop, OnOk, OnErr, IfErr};
ghost use Rattle.mdb_shared.specs.Seats.{HasCore};
ghost use Rattle.mdb_turns.specs.Stepping.{OnlySaw};
ghost use Rattle.mdb_recorders.specs.Recording.{Follows, Misses};

use crate::handling::EntryHandler;
use mdb_journal::Taken;
use mdb_log::{Core, Log};
use mdb_shared::{Seat, SharedDriver};
use std::alloc::Global;
use std::marker::Model;
use std::sync::Wait;

/// Takes the entries of a driver and hands them on. It keeps those that it took and could not hand on yet.
#[derive(Drop)]
pub struct Recorder {
    done: u64,
    held: Log,
}

impl Model for Recorder {
    ghost use Rattle.std.specs.Prelude.{◌<◌, ◌+◌, ◌^◌, length};
    ghost use Rattle.std.specs.Coded.{codes};
    ghost use Rattle.mdb_base.specs.DocumentCode.{fields_coded};
    ghost use Rattle.mdb_recorders.specs.Recording.{Recording};

    ghost Value = { Recording };

    ghost coded = { Prim.hlevel (codes, fields_coded) };

    ghost view = { λ r. record { done = r.done; held = r.held } };

    ghost invariant = { λ r. r.done + length r.held < 2 ^ 64 };
}

/// Why entries were not handed on.
#[derive(Drop)]
pub enum RecordError<E: Drop> {
    /// The handler took none of those that are to be handed on. They are kept.
    Handler(E),
    /// Another took entries before: the first of these comes after some that were never handed on. So is each later call answered. Who goes on behind these makes
    /// a new recorder, `Recorder::new(alloc, taken.from + taken.entries.len() as u64)`.
    Missing(Taken),
}

impl Recorder {
    ghost use Rattle.std.specs.Prelude.{List};
    ghost use Rattle.mdb_log.specs.declared.log.Entry.{Entry};

    /// A recorder that hands on all but the first so many entries. 0 for a driver from which nobody took any.
    pub fn new(alloc: Global, done: u64) -> Recorder
        ensures { result ≡ record { done = done; held = [] } }
    {
        Recorder {
            done,
            held: Log::new(alloc),
        }
    }

    /// How many entries were handed on.
    pub fn done(&self) -> u64
        ensures { result ≡ self.now.done }
    {
        self.done
    }

    // Hands on what it keeps.
    fn hand_on<H: EntryHandler>(&mut self, alloc: Global, handler: &mut H) -> Result<(), H::Error>
        ensures ok { OnOk result (H.took handler.old handler.new self.old.held × (self.new ≡ record { done = self.old.done + length self.old.held; held = [] })) }
        ensures err { OnErr result (H.took handler.old handler.new [] × (self.new ≡ self.old)) }
    {
        handler.handle_entries(alloc, self.held.entries())?;
        self.done = self.done + self.held.len() as u64;
        self.held = Log::new(alloc);
        Ok(())
    }

    /// Takes the entries that nobody took, and hands them on behind those that it keeps: all that the seat has seen then, but for those that were handed
    /// on before. After an error of the handler the same call goes on with what is kept. It adds no entry. Each caller that waits for a connection, and had not
    /// looked at these entries yet, asks by an entry of its own once there is news. It may wait for the turn.
    pub fn record<C: Core, R: Wait, H: EntryHandler>(
        &mut self,
        driver: &SharedDriver<C>,
        rt: &R,
        alloc: Global,
        seat: &mut Seat<C>,
        handler: &mut H,
    ) -> Result<(), RecordError<H::Error>>
        requires own { seat.old.driver ≡ driver.now.id }
        requires follows { Follows self.old seat.old.seen }
        ensures same { (seat.new.driver ≡ seat.old.driver) × (seat.new.number ≡ seat.old.number) }
        ensures saw { OnlySaw seat.old seat.new }
        ensures handed { OnOk result (H.took handler.old handler.new (drop self.old.done seat.new.seen)) }
        ensures done { OnOk result (self.new ≡ record { done = length seat.new.seen; held = [] }) }
        ensures missing { IfErr result (λ e. Misses e self.new seat.new.seen) }
        ensures fits { OnOk result (HasCore C.stands seat.new) }
        ensures follows { Follows self.new seat.new.seen }
    {
        match self.hand_on(alloc, handler) {
            Ok(()) => {}
            Err(e) => return Err(RecordError::Handler(e)),
        }
        let taken = driver.take(rt, alloc, seat);
        if taken.from != self.done {
            return Err(RecordError::Missing(taken));
        }
        let Taken { from: _, entries } = taken;
        self.held = entries;
        match self.hand_on(alloc, handler) {
            Ok(()) => Ok(()),
            Err(e) => Err(RecordError::Handler(e)),
        }
    }
}

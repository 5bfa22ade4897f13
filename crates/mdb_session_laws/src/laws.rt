//! The laws of whole logs, of sessions. Each holds of any session's log, since a session keeps a driver that stands for it.

ghost use Rattle.std.specs.Prelude.{◌≡◌, List, Some};
ghost use Rattle.mdb_histories.specs.SoundHistory.{SoundHistory};
ghost use Rattle.mdb_laws.specs.LogHeadline.{LogHeadline};
ghost use Rattle.mdb_log.specs.declared.log.Entry.{Entry};
ghost use Rattle.mdb_log.specs.History.{history_of};
ghost use Rattle.mdb_log.specs.PlainLegal.{LegalLog};
ghost use Rattle.mdb_topology.specs.declared.topology.TopologyCore.{TopologyCore};
ghost use Rattle.mdb_topology.specs.Logging.{IsDriverOf};

use mdb_histories::keeping::driver_logs_are_sound;
use mdb_histories::legality::driver_logs_are_legal;
use mdb_laws::headline::logs_keep_the_headline;
use mdb_session::{Session, Slot};
use std::alloc::Global;

/// The log keeps what every log of a driver keeps: refusals exactly by the table, one place, the longest-waiting caller first, nobody left waiting who could be granted, limits, no stale or idle grant,
/// closes by their causes, pools by theirs, each outcome told once, and late errors without effect.
pub fn sessions_keep_the_headline(session: &Session)
    ensures { LogHeadline session.now }
{
    session.logs_are_legal();
    logs_keep_the_headline();
}

/// So does the log of an open slot, whatever calls were made of it: a driver stands for it, its history is sound, and it keeps the headline. The slot stays as it is.
pub fn slots_keep_the_headline(alloc: Global, slot: &mut Slot)
    ensures driver { (log : List Entry) → slot.old.word.value ≡ Some log → (core : TopologyCore) × IsDriverOf core log }
    ensures sound { (log : List Entry) → slot.old.word.value ≡ Some log → SoundHistory (history_of log) }
    ensures headline { (log : List Entry) → slot.old.word.value ≡ Some log → LogHeadline log }
    ensures same { slot.new.word.value ≡ slot.old.word.value }
{
    let Some(session) = slot.take(alloc) else {
        return;
    };
    session.logs_are_legal();
    driver_logs_are_sound();
    logs_keep_the_headline();
    *slot = Slot::holding(session);
}

/// The log is legal by the plain sentences: its first entry alone opens the seeds, and after each entry every connection has one place, each grant went to who came first, and nobody waits who could be
/// granted a connection (CMAP, "Connection", "WaitQueue").
pub fn logs_are_legal(session: &Session)
    ensures { LegalLog session.now }
{
    session.logs_are_legal();
    driver_logs_are_legal();
}

/// The log's history is sound: each step and each fact may come after what came before, in each pool and across pools.
pub fn logs_are_sound(session: &Session)
    ensures { SoundHistory (history_of session.now) }
{
    session.logs_are_legal();
    driver_logs_are_sound();
}

fn crosses<S: Send>(_value: &S) {}

/// A slot may go from thread to thread, with the session that it holds, under whatever orders their calls.
pub fn slots_cross(slot: &Slot) {
    crosses(slot);
}

//! The logs that a driver writes are legal by the plain sentences too, which are said of any list of entries.

ghost use Rattle.std.specs.Prelude.{List};
ghost use Rattle.mdb_log.specs.declared.log.Entry.{Entry};
ghost use Rattle.mdb_log.specs.History.{history_of};
ghost use Rattle.mdb_log.specs.LegalLog.{IsLegalLog};
ghost use Rattle.mdb_log.specs.PlainLegal.{LegalLog};
ghost use Rattle.mdb_topology.specs.declared.topology.TopologyCore.{TopologyCore};
ghost use Rattle.mdb_topology.specs.Logging.{IsDriverOf};
ghost use Rattle.mdb_histories.specs.SoundHistory.{SoundHistory};
ghost use Rattle.mdb_histories.specs.Opened.{BeginsAccepted, BeginsWithSeeds};

/// A log that is legal by the definitions which the driver's answers are proved by, whose first entry was accepted, and in whose history each item may come after those before it, is legal by the
/// plain sentences: they are said of any list of entries, whoever wrote it, and read off the whole history what the others read off the items of each pool alone (CMAP, "Connection", "Connection
/// Pool", "WaitQueue"). A log that is legal by the plain sentences begins with an accepted entry, so that no weaker condition would do.
pub fn sound_logs_are_legal()
    ensures { (log : List Entry) → IsLegalLog log → SoundHistory (history_of log) → BeginsAccepted log → LegalLog log }
{}

/// Every log for which a driver stands is legal by the plain sentences: its first entry alone opens the seeds, and after each entry every connection has one place, each grant went to who came first, and
/// nobody waits who could be granted a connection.
pub fn driver_logs_are_legal()
    ensures { (w : TopologyCore) (log : List Entry) → IsDriverOf w log → LegalLog log }
{}

/// A legal log that begins with the opening of at least one seed begins with an accepted entry. One that opens no seed may begin with a refused one: it is legal by the definitions which the
/// driver's answers are proved by, and not by the plain sentences.
pub fn openings_are_accepted()
    ensures { (log : List Entry) → IsLegalLog log → BeginsWithSeeds log → BeginsAccepted log }
{}

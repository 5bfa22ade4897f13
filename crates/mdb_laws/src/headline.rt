//! What every log of a driver keeps, in one place.

ghost use Rattle.std.specs.Prelude.{List};
ghost use Rattle.mdb_log.specs.declared.log.Entry.{Entry};
ghost use Rattle.mdb_topology.specs.declared.topology.TopologyCore.{TopologyCore};
ghost use Rattle.mdb_topology.specs.Logging.{IsDriverOf};
ghost use Rattle.mdb_laws.specs.LogHeadline.{LogHeadline};

/// In every log for which a driver stands, whoever made its steps: each step is refused exactly as the table of refusals says; after every entry each live connection has one place, each grant went to
/// the caller that waited longest, and nobody is left waiting who could be granted a connection; each pool is within its limits in every prefix; no stale or idle connection is granted; every close has
/// its cause, and what must be closed is; pools are opened, marked ready, cleared and closed by their causes alone; an outcome is told once; and late errors are without effect.
pub fn logs_keep_the_headline()
    ensures { (w : TopologyCore) (log : List Entry) → IsDriverOf w log → LogHeadline log }
{}

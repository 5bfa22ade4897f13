//! The driver that the first line opens.

ghost use Rattle.std.specs.Prelude.{◌≡◌, ◌∷◌, [], IfOk};
ghost use Rattle.mdb_topology.specs.Driving.{IsFirstStep};
ghost use Rattle.mdb_driver_rules.specs.Lines.{entry_after};
ghost use Rattle.mdb_topology.specs.Logging.{IsDriverOf};

use mdb_base::OutOfMemory;
use mdb_log::{Act, Log, Step};
use mdb_topology::TopologyCore;
use std::alloc::Global;

/// Opens the driver, and begins its log.
pub(crate) fn open(alloc: Global, first: &Step) -> Result<(TopologyCore, Log), OutOfMemory>
    requires opens { IsFirstStep first.now }
    ensures entry { IfOk result (λ r. r.1 ≡ entry_after 0 [] first.now ∷ []) }
    ensures opened { IfOk result (λ r. IsDriverOf r.0 r.1) }
{
    let Act::Open(options) = &first.act else {
        unreachable!()
    };
    let options = options.get().clone()?;
    let mut log = Log::new(alloc);
    let core = TopologyCore::open_seeds(alloc, &mut log, 0, options)?;
    Ok((core, log))
}

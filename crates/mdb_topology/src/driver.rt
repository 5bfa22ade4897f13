//! What answers the lines of a script: the driver that its first line opens.

ghost use Rattle.std.specs.Prelude.{◌≡◌, ◌++◌, ◌∷◌, [], OnOk, OnErr, List};
ghost use Rattle.mdb_topology.specs.Driving.{opens_seeds, may_come};
ghost use Rattle.mdb_driver_rules.specs.Lines.{entry_after, steps_of};
ghost use Rattle.mdb_driver_rules.specs.Acts.{is_driver_act};

use crate::stepping::is_driver_act;
use crate::topology::TopologyCore;
use mdb_base::OutOfMemory;
use mdb_log::{Act, Log, Step};
use std::alloc::Global;

/// The driver of a script, once its first line has opened it.
#[derive(Drop)]
pub struct Driver {
    pub(crate) core: Option<TopologyCore>,
}

// The act opens a driver.
fn opens_seeds(act: &Act) -> bool
    ensures { result ≡ opens_seeds act.now }
{
    matches!(act, Act::Open(_))
}

impl Driver {
    ghost use Rattle.mdb_log.specs.declared.log.Entry.{Entry};
    ghost use Rattle.mdb_topology.specs.Driving.{Stands, IsTaken, IsFirstStep};

    /// Nothing is open before the first line.
    pub fn new() -> Driver
        ensures { Stands result [] }
    {
        Driver { core: None }
    }

    /// The step may come: the first one opens a driver, and no later one does.
    pub fn may_come(&self, step: &Step) -> bool
        ensures { (log : List Entry) → Stands self.now log → result ≡ may_come (steps_of log) step.now }
    {
        match &self.core {
            None => opens_seeds(&step.act),
            Some(_) => is_driver_act(&step.act),
        }
    }

    // Opens the driver.
    fn open(&mut self, alloc: Global, log: &mut Log, step: &Step) -> Result<(), OutOfMemory>
        requires first { log.old ≡ [] }
        requires opens { IsFirstStep step.now }
        ensures ok { OnOk result (log.new ≡ entry_after 0 [] step.now ∷ []) }
        ensures stands { OnOk result (Stands self.new log.new) }
        ensures err_log { OnErr result (log.new ≡ log.old) }
        ensures err_driver { OnErr result (self.new ≡ self.old) }
    {
        let Act::Open(options) = &step.act else {
            unreachable!()
        };
        let options = options.get().clone()?;
        let core = TopologyCore::open_seeds(alloc, log, 0, options)?;
        self.core = Some(core);
        Ok(())
    }

    /// Answers one line: the log gets its entry, of seat 0. After `OutOfMemory` the log is as before, and the driver stands for it.
    pub fn step(&mut self, alloc: Global, log: &mut Log, step: &Step) -> Result<(), OutOfMemory>
        requires stands { Stands self.old log.old }
        requires taken { IsTaken log.old step.now }
        ensures ok { OnOk result (log.new ≡ log.old ++ entry_after 0 log.old step.now ∷ []) }
        ensures stands { Stands self.new log.new }
        ensures err { OnErr result (log.new ≡ log.old) }
    {
        match &mut self.core {
            None => self.open(alloc, log, step),
            Some(core) => {
                let reply = core.step(alloc, log, 0, step)?;
                drop(reply);
                Ok(())
            }
        }
    }
}

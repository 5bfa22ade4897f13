//! The driver as a core of many pools: what it stands for is the log of its steps.

ghost use Rattle.mdb_driver_rules.specs.Jobs.{job_after as job_of};
ghost use Rattle.mdb_driver_rules.specs.Lines.{described as told_of, publications as published_in};
ghost use Rattle.mdb_topology.specs.Logging.{IsDriverOf};

use crate::topology::TopologyCore;
use mdb_base::{Moment, OutOfMemory};
use mdb_describe::TopologyDescription;
use mdb_log::{Core, Job, Log, Reply, Step};
use std::alloc::Global;

impl Core for TopologyCore {
    ghost use Rattle.mdb_driver_rules.specs.Growing.{publications-grow};

    ghost stands = { IsDriverOf };

    ghost described = { told_of };

    ghost publications = { published_in };

    ghost job_after = { job_of };

    fn step(
        &mut self,
        alloc: Global,
        log: &mut Log,
        seat: u32,
        step: &Step,
    ) -> Result<Reply, OutOfMemory> {
        TopologyCore::step(self, alloc, log, seat, step)
    }

    fn last_moment(&self) -> Moment {
        self.pools.last
    }

    fn description(&self) -> &TopologyDescription {
        &self.description
    }

    fn published(&self) -> u64 {
        self.published
    }

    fn job(&self, alloc: Global, pool: u32, id: u32) -> Result<Option<Job>, OutOfMemory> {
        TopologyCore::job(self, alloc, pool, id)
    }

    ghost publications_grow = { publications-grow };
}

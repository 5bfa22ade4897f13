//! What a new description of a server comes to. Most say again what is known of it, and then nothing is copied.

ghost use Rattle.std.specs.Prelude.{◌≡◌, ◌≤◌, IfOk};

use crate::topology::TopologyCore;
use crate::transition::{Decision, Transition};
use mdb_base::OutOfMemory;
use mdb_describe::ServerDescription;
use mdb_log::{Reply, Step};
use std::alloc::Global;

impl TopologyCore {
    ghost use Rattle.mdb_describe.specs.Update.{updated};
    ghost use Rattle.mdb_topology.specs.Changing.{ChangesTo};
    ghost use Rattle.mdb_topology.specs.Standing.{StandsForSome};

    // The change that a description of a server makes; where it says nothing new, it is to take its place.
    pub(crate) fn change_server(
        &mut self,
        alloc: Global,
        step: &Step,
        server: ServerDescription,
    ) -> Result<Decision, OutOfMemory>
        requires stands { StandsForSome self.old }
        requires in_time { self.old.pools.last ≤ step.now.moment }
        ensures same { self.new ≡ self.old }
        ensures changes { IfOk result (λ stepped. ChangesTo self.old step.now.moment (updated self.old.description server) stepped) }
    {
        let again = self.description.is_repeated(alloc, &server)?;
        if again {
            let next = Transition::of_reply(alloc, Reply::Changed(false));
            return Ok(Decision::Repeated(next, server));
        }
        let later = self.updated(alloc, server)?;
        self.change(alloc, step, later)
    }
}

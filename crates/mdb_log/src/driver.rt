//! What a core of many pools is to those who step it.

ghost use Rattle.std.specs.Prelude.{◌≡◌, ◌≤◌, ℕ, IsTrue, List, [], ◌∷◌, ◌++◌, Option, IfOk, OnErr};
ghost use Rattle.mdb_describe.specs.declared.topology.TopologyDescription.{TopologyDescription};
ghost use Rattle.mdb_log.specs.declared.log.Entry.{Entry};
ghost use Rattle.mdb_log.specs.declared.job.Job.{Job};
ghost use Rattle.mdb_log.specs.Driver.{IsEntry, is_reply_to, is_in_time, IsThere};
ghost use Rattle.mdb_log.specs.Acts.{IsDriverAct};
ghost use Rattle.mdb_log.specs.History.{history_of, last_moment};

use super::{Job, Log, Reply, Step};
use mdb_base::{Moment, OutOfMemory};
use mdb_describe::TopologyDescription;
use std::alloc::Global;

/// The whole state of a driver, stepped by one at a time. What it stands for is a log of its steps.
pub trait Core: Send + Drop {
    /// The core stands for a log.
    ghost stands: { Self → List Entry → Type 0 };

    /// What a log tells of the topology.
    ghost described: { List Entry → TopologyDescription };

    /// How often the topology was published in a log.
    ghost publications: { List Entry → ℕ };

    /// The job of the connection, by the numbers of its pool and its own, where it is pending after a log.
    ghost job_after: { List Entry → ℕ → ℕ → Option Job };

    /// Adds one entry to the log, of the seat, with a copy of the step. Every act but the opening and those of a single pool may come. The core stands for
    /// a whole log, of which the one given may be an end, or have none of its entries: what comes to the one comes to the other. After `OutOfMemory` the log
    /// is as it was, and the core stands for what it stood for.
    fn step(
        &mut self,
        alloc: Global,
        log: &mut Log,
        seat: u32,
        step: &Step,
    ) -> Result<Reply, OutOfMemory>
        requires act { IsDriverAct step.now.act }
        requires stands { (whole : List Entry) × stands self.old whole }
        ensures entry { IfOk result (λ reply. (e : Entry) × IsEntry seat step.now reply e × (log.new ≡ log.old ++ e ∷ [])) }
        ensures stands { (whole more : List Entry) → stands self.old whole → log.new ≡ log.old ++ more → stands self.new (whole ++ more) }
        ensures kind { IfOk result (λ reply. IsTrue (is_reply_to step.now.act reply)) }
        ensures in_time { IfOk result (λ reply. (whole : List Entry) → stands self.old whole → last_moment (history_of whole) ≤ step.now.moment → IsTrue (is_in_time step.now.act reply)) }
        ensures job { IfOk result (λ reply. (whole more : List Entry) → stands self.old whole → log.new ≡ log.old ++ more → IsThere (job_after (whole ++ more)) reply) }
        ensures err_log { OnErr result (log.new ≡ log.old) };

    /// The moment of the last accepted step, 0 after the opening.
    fn last_moment(&self) -> Moment
        ensures { (log : List Entry) → stands self.now log → result ≡ last_moment (history_of log) };

    /// What is known of the topology now.
    fn description(&self) -> &TopologyDescription
        ensures { (log : List Entry) → stands self.now log → result.now ≡ described log };

    /// How often the topology was published: once by every accepted step that updates it or the time of the cluster.
    fn published(&self) -> u64
        ensures { (log : List Entry) → stands self.now log → result ≡ publications log };

    /// The job of a connection, and `None` exactly where it isn't pending. Under load balancing its generation lists the services that were
    /// cleared before the connection was created.
    fn job(&self, alloc: Global, pool: u32, id: u32) -> Result<Option<Job>, OutOfMemory>
        ensures { IfOk result (λ job. (log : List Entry) → stands self.now log → job ≡ job_after log pool id) };

    // Publications are never taken back.
    ghost publications_grow: { (log more : List Entry) → publications log ≤ publications (log ++ more) };
}

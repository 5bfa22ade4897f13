//! What a session tells without a step: the last entry, its facts, and what its driver knows.

ghost use Rattle.std.specs.Prelude.{◌≡◌, ◌++◌, ◌≤◌, ◌<◌, ℕ, List, IfOk, IfSome, IfNone, OnErr, length, drop};
ghost use Rattle.mdb_events.specs.FactText.{fact_text};
ghost use Rattle.mdb_events.specs.declared.fact.Fact.{Fact};
ghost use Rattle.mdb_log.specs.History.{history_of, open_pool};
ghost use Rattle.mdb_driver_rules.specs.Jobs.{job_after};
ghost use Rattle.mdb_driver_rules.specs.Lines.{described, last_of, publications};
ghost use Rattle.mdb_lines.specs.Spelling.{HasSpelling};
ghost use Rattle.mdb_session.specs.Sessions.{IsLast, IsLastFact, LacksFact};

use crate::session::Session;
use crate::texts::copied;
use mdb_base::{Moment, OutOfMemory, ServerAddress};
use mdb_describe::TopologyDescription;
use mdb_log::{Entry, Job};
use std::alloc::Global;

impl Session {
    /// The last entry. A line spells its step.
    pub fn last(&self) -> &Entry
        ensures last { IsLast self.now result.now }
        ensures spelled { HasSpelling result.now.step }
    {
        let Some(entry) = self.last.entries().last() else {
            unreachable!()
        };
        entry
    }

    /// Writes the text of a fact of the last entry, by its index, to the beginning of `out` where it fits there, and answers how long it is. `None`
    /// where there is no such fact.
    pub fn fact_text(
        &self,
        alloc: Global,
        index: usize,
        out: &mut [u8],
    ) -> Result<Option<usize>, OutOfMemory>
        ensures fits { IfOk result (λ found. IfSome found (λ n. n ≤ length out.old → (f : Fact) × IsLastFact self.now index f × (length (fact_text f) ≡ n) × (out.new ≡ fact_text f ++ drop n out.old))) }
        ensures small { IfOk result (λ found. IfSome found (λ n. length out.old < n → (f : Fact) × IsLastFact self.now index f × (length (fact_text f) ≡ n) × (out.new ≡ out.old))) }
        ensures none { IfOk result (λ found. IfNone found (LacksFact self.now index × (out.new ≡ out.old))) }
        ensures err { OnErr result (out.new ≡ out.old) }
    {
        let Some(fact) = self.last().facts.as_slice().get(index) else {
            return Ok(None);
        };
        let text = format!(in alloc; "{fact}")?;
        Ok(Some(copied(text.as_bytes(), out)))
    }

    /// The moment of the last step that was accepted.
    pub fn last_moment(&self) -> Moment
        ensures { result ≡ last_of self.now }
    {
        self.core.last_moment()
    }

    /// How often an accepted step told of the topology, its opening included.
    pub fn published(&self) -> u64
        ensures { result ≡ publications self.now }
    {
        self.core.published()
    }

    /// What is known of the topology and its servers.
    pub fn described(&self) -> &TopologyDescription
        ensures { result.now ≡ described self.now }
    {
        self.core.description()
    }

    /// The number of the pool that is open at the address.
    pub fn open_pool(&self, address: &ServerAddress) -> Option<u32>
        ensures { result ≡ open_pool (history_of self.now) address.now }
    {
        self.core.open_pool(address)
    }

    /// What a worker needs that establishes the connection of the pool (CMAP, "Establishing a Connection"), and `None` where it isn't pending.
    pub fn job(&self, alloc: Global, pool: u32, id: u32) -> Result<Option<Job>, OutOfMemory>
        ensures { IfOk result (λ job. job ≡ job_after self.now pool id) }
    {
        self.core.job(alloc, pool, id)
    }
}

//! The outside of a worker: what establishes connections, and what is told of each job.

ghost use Rattle.std.specs.Prelude.{◌≡◌, ℕ, List};

use mdb_base::{Error, ObjectId};
use mdb_events::Boxed;
use mdb_log::{Established, Job};
use std::alloc::Global;
use thiserror::Error as ThisError;

/// Why no connection was established.
#[derive(Debug, Drop, ThisError)]
pub enum EstablishError {
    /// It failed with this error: whether after the hello of the server, with the service that it named.
    #[error("the connection was refused")]
    Refused(bool, Option<ObjectId>, Boxed<Error>),
    /// There was no memory.
    #[error("out of memory")]
    OutOfMemory,
}

/// A job that an establisher was called with, and its answer.
#[derive(Debug, Drop)]
pub struct Call {
    pub job: Job,
    pub answer: Result<Established, EstablishError>,
}

/// Establishes connections (CMAP, "Establishing a Connection").
pub trait Establisher {
    ghost use Rattle.mdb_workers.specs.declared.establishing.Call.{Call};
    ghost use Rattle.mdb_workers.specs.Establishing.{calls_after, Counts, CountsWants};

    /// Its calls so far, but those that were answered `OutOfMemory`.
    ghost calls: { Self → List Call };

    /// How often it refused.
    ghost faults: { Self → ℕ };

    /// How often it had no memory.
    ghost wants: { Self → ℕ };

    /// Establishes the connection of the job.
    fn establish(&mut self, alloc: Global, job: &Job) -> Result<Established, EstablishError>
        ensures calls { calls self.new ≡ calls_after (calls self.old) job.now result }
        ensures faults { Counts (faults self.old) (faults self.new) result }
        ensures wants { CountsWants (wants self.old) (wants self.new) result };
}

/// Is told of each job, before and after it is done.
pub trait Gate {
    fn before(&mut self, job: &Job);

    fn after(&mut self, job: &Job);
}

/// A gate that is always open.
#[derive(Clone, Copy, Debug)]
pub struct OpenGate;

impl Gate for OpenGate {
    fn before(&mut self, _job: &Job) {}

    fn after(&mut self, _job: &Job) {}
}

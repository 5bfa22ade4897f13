//! An establisher in memory.

ghost use Rattle.std.specs.Prelude.{◌≡◌, false, [], length, None, Ok, Err, IfOk, OnOk, OnErr};
ghost use Rattle.mdb_base.specs.Outside.{Rose};
ghost use Rattle.mdb_workers.specs.declared.establishing.EstablishError.TheVariants.{Refused};
ghost use Rattle.mdb_workers.specs.Establishing.{calls_after};
ghost use Rattle.mdb_workers.specs.Memory.{made_so_far, refusals, times_without};

use crate::establishing::{Call, EstablishError, Establisher};
use mdb_base::Error;
use mdb_events::Boxed;
use mdb_log::{Established, Job, PoolGeneration, PoolStamp};
use std::alloc::{AllocError, Global};

/// An establisher that gives the same answer to each job. Its calls are numbered from 1. Those in `fails` are refused with `error` before the
/// hello. It remembers its calls.
#[derive(Drop)]
pub struct MemEstablisher {
    made: Established,
    error: Error,
    fails: Vec<u64>,
    calls: Vec<Call>,
    refused: u64,
    wanted: u64,
}

fn copied_generation(generation: &PoolGeneration) -> Result<PoolGeneration, AllocError>
    ensures { IfOk result (λ copy. copy ≡ generation.now) }
{
    match generation {
        PoolGeneration::Normal(cleared) => Ok(PoolGeneration::Normal(*cleared)),
        PoolGeneration::LoadBalanced(cleared) => {
            let cleared = cleared.clone()?;
            Ok(PoolGeneration::LoadBalanced(cleared))
        }
    }
}

fn copied_job(job: &Job) -> Result<Job, AllocError>
    ensures { IfOk result (λ copy. copy ≡ job.now) }
{
    let address = job.address.clone()?;
    let generation = copied_generation(&job.generation.generation)?;
    Ok(Job {
        pool: job.pool,
        id: job.id,
        address,
        generation: PoolStamp {
            pool: job.generation.pool,
            generation,
        },
    })
}

impl MemEstablisher {
    /// An establisher that was not called yet. It takes no memory.
    pub fn new(alloc: Global, made: Established, error: Error, fails: Vec<u64>) -> MemEstablisher
        ensures calls { made_so_far result ≡ [] }
        ensures refusals { refusals result ≡ 0 }
        ensures wants { times_without result ≡ 0 }
    {
        MemEstablisher {
            made,
            error,
            fails,
            calls: Vec::new(alloc),
            refused: 0,
            wanted: 0,
        }
    }

    /// How many calls it has answered.
    pub fn count(&self) -> usize
        ensures { result ≡ length (made_so_far self.now) }
    {
        self.calls.len()
    }

    // The next call is refused.
    fn refuses(&self) -> bool {
        let number = self.calls.len() as u64;
        self.fails.contains(&number.saturating_add(1))
    }

    // Refuses the job, and remembers that.
    fn refuse(&mut self, alloc: Global, job: Job) -> Result<Boxed<Error>, AllocError>
        ensures calls { IfOk result (λ error. made_so_far self.new ≡ calls_after (made_so_far self.old) job (Err (Refused false None error))) }
        ensures rose { OnOk result (Rose (refusals self.old) (refusals self.new)) }
        ensures err { OnErr result ((made_so_far self.new ≡ made_so_far self.old) × (refusals self.new ≡ refusals self.old)) }
        ensures wants { times_without self.new ≡ times_without self.old }
    {
        let error = Boxed::copy_of(alloc, &self.error)?;
        let told = Boxed::copy_of(alloc, &self.error)?;
        self.calls.push(Call {
            job,
            answer: Err(EstablishError::Refused(false, None, told)),
        })?;
        self.refused = self.refused.saturating_add(1);
        Ok(error)
    }

    // Does the job, and remembers that.
    fn make(&mut self, job: Job) -> Result<Established, AllocError>
        ensures calls { IfOk result (λ made. made_so_far self.new ≡ calls_after (made_so_far self.old) job (Ok made)) }
        ensures faults { refusals self.new ≡ refusals self.old }
        ensures err { OnErr result (made_so_far self.new ≡ made_so_far self.old) }
        ensures wants { times_without self.new ≡ times_without self.old }
    {
        self.calls.push(Call {
            job,
            answer: Ok(self.made),
        })?;
        Ok(self.made)
    }

    // There was no memory.
    fn note_want(&mut self)
        ensures wants { Rose (times_without self.old) (times_without self.new) }
        ensures rest { (made_so_far self.new ≡ made_so_far self.old) × (refusals self.new ≡ refusals self.old) }
    {
        self.wanted = self.wanted.saturating_add(1);
    }
}

impl Establisher for MemEstablisher {
    ghost use Rattle.mdb_workers.specs.Memory.{made_so_far, refusals, times_without};

    ghost calls = { made_so_far };

    ghost faults = { refusals };

    ghost wants = { times_without };

    fn establish(&mut self, alloc: Global, job: &Job) -> Result<Established, EstablishError> {
        let Ok(job) = copied_job(job) else {
            self.note_want();
            return Err(EstablishError::OutOfMemory);
        };
        if self.refuses() {
            return match self.refuse(alloc, job) {
                Ok(error) => Err(EstablishError::Refused(false, None, error)),
                Err(_) => {
                    self.note_want();
                    Err(EstablishError::OutOfMemory)
                }
            };
        }
        match self.make(job) {
            Ok(made) => Ok(made),
            Err(_) => {
                self.note_want();
                Err(EstablishError::OutOfMemory)
            }
        }
    }
}

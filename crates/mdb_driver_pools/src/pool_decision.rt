//! What becomes of a step of one pool.

ghost use Rattle.std.specs.Prelude.{◌≡◌};

use mdb_log::Refused;

/// What becomes of a step of one pool.
#[derive(Drop)]
pub enum PoolDecision {
    /// The step is refused, and nothing changes.
    Refused(Refused),
    /// The step is accepted and concerns no pool: a claim finds no job.
    Idle,
    /// The step is accepted, and concerns the pool at the place alone.
    Concerns(usize),
}

impl PoolDecision {
    ghost use Rattle.mdb_driver_pools.specs.Taking.{cause_of};

    /// Why the step is refused, where it is.
    pub fn refusal(self) -> Option<Refused>
        ensures { result ≡ cause_of self }
    {
        match self {
            PoolDecision::Refused(why) => Some(why),
            PoolDecision::Idle | PoolDecision::Concerns(_) => None,
        }
    }
}

//! One of the pools is asked a step.

ghost use Rattle.std.specs.Prelude.{◌≡◌, true, false};
ghost use Rattle.mdb_driver_pools.specs.Finding.{names_known};
ghost use Rattle.mdb_driver_rules.specs.Acts.{is_pool_act};
ghost use Rattle.mdb_driver_pools.specs.Living.{lives_at};

use crate::pool_decision::PoolDecision;
use crate::pool_queries::refusal_now;
use crate::pools::Pools;
use mdb_log::Step;

impl Pools {
    ghost use Rattle.mdb_driver_pools.specs.Asking.{IsAsked};

    /// The pool at the place is asked, to which the party is new that the act names.
    pub fn ask(&self, place: usize, step: &Step) -> PoolDecision
        requires there { lives_at self.now.cores.items place ≡ true }
        requires act { is_pool_act step.now.act ≡ true }
        requires new { names_known self.now.cores.items step.now.act ≡ false }
        ensures { IsAsked self.now.cores.items place step.now result }
    {
        match refusal_now(self.cores.at(place), step) {
            Some(why) => PoolDecision::Refused(why),
            None => PoolDecision::Concerns(place),
        }
    }
}

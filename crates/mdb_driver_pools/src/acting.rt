//! What becomes of an act of one pool.

ghost use Rattle.std.specs.Prelude.{◌≡◌, ◌≤◌, ◌<◌, ◌||◌, ℕ, List, All, length, true};
ghost use Rattle.mdb_intervals.specs.Spans.{has as is_within};
ghost use Rattle.mdb_log.specs.Requests.{names_party};
ghost use Rattle.mdb_driver_pools.specs.Finding.{named_by};
ghost use Rattle.mdb_driver_rules.specs.Acts.{is_pool_act};
ghost use Rattle.mdb_pool.specs.Now.{last_now};

use crate::pool_decision::PoolDecision;
use crate::pools::Pools;
use mdb_log::{Act, Refused, Step};

/// The act is one of those of one pool that clear none.
pub fn is_pool_act(act: &Act) -> bool
    ensures { result ≡ is_pool_act act.now }
{
    match act {
        Act::Request(_, _) | Act::Warm(_, _) | Act::Maintain(_) | Act::Expire(_) => true,
        Act::Collect(_) | Act::Claim | Act::GiveUp(_) | Act::Established(_, _, _) => true,
        Act::Return(_, _) | Act::Pin(_) | Act::Replicate(_, _) => true,
        Act::Take(_, _, _) | Act::Unpin(_, _) => true,
        _ => false,
    }
}

/// The party that the act names, of which there was none before.
pub(crate) fn named_by(act: &Act) -> Option<u32>
    ensures { result ≡ named_by act.now }
{
    match act {
        Act::Request(party, _) | Act::Warm(party, _) | Act::Take(party, _, _) => Some(*party),
        _ => None,
    }
}

impl Pools {
    ghost use Rattle.mdb_base.specs.declared.options.Options.{Options};
    ghost use Rattle.mdb_log.specs.History.{Item, last_moment};
    ghost use Rattle.mdb_log.specs.Opening.{pool_options};
    ghost use Rattle.mdb_driver_pools.specs.Asking.{Lacks};
    ghost use Rattle.mdb_driver_rules.specs.Description.{description_of};
    ghost use Rattle.mdb_driver_pools.specs.Finding.{names_known};
    ghost use Rattle.mdb_driver_rules.specs.Acts.{is_pool_act};
    ghost use Rattle.mdb_driver_pools.specs.Standing.{IsApart, IsSingle, KnowsAll, PoolsStand};
    ghost use Rattle.mdb_driver_pools.specs.Taking.{IsReady, Performs};

    /// The party that an accepted act names is known from now on. It takes no memory.
    pub fn note(&mut self, act: &Act)
        requires { length self.old.known.spans < self.old.known.capacity }
        ensures known { (r : ℕ) → is_within r self.new.known.spans ≡ names_party act.now r || is_within r self.old.known.spans }
        ensures others { self.new ≡ record self.old { known = self.new.known } }
    {
        match named_by(act) {
            Some(party) => self.known.insert_ready(party),
            None => {}
        }
    }

    // The act uses up the number of a party that some pool knows.
    fn names_known(&self, act: &Act) -> bool
        requires { KnowsAll self.now }
        ensures { result ≡ names_known self.now.cores.items act.now }
    {
        match act {
            Act::Request(party, _) | Act::Warm(party, _) => self.knows(*party),
            Act::Take(party, _, _) => self.knows(*party),
            _ => false,
        }
    }

    // What becomes of an act that concerns no pool: a claim finds no job, and all others are refused.
    fn without_pool(&self, act: &Act) -> PoolDecision
        requires { KnowsAll self.now }
        ensures { Lacks self.now.cores.items act.now result }
    {
        PoolDecision::Refused(match act {
            Act::Request(_, _) | Act::Warm(_, _) => Refused::UnknownServer,
            Act::Maintain(_) | Act::Expire(_) => Refused::UnknownServer,
            Act::Collect(_) | Act::GiveUp(_) => Refused::UnknownRequest,
            Act::Established(_, _, _) => Refused::NotPending,
            Act::Return(_, _) | Act::Pin(_) => Refused::NotHolder,
            Act::Take(party, _, _) if self.knows(*party) => Refused::RequestKnown,
            Act::Replicate(_, _) | Act::Take(_, _, _) | Act::Unpin(_, _) => Refused::Unpinned,
            _ => return PoolDecision::Idle,
        })
    }

    /// What becomes of an act of one pool, at or after the last moment.
    pub fn act(&self, step: &Step) -> PoolDecision
        requires act { is_pool_act step.now.act ≡ true }
        requires known { KnowsAll self.now }
        requires in_time { self.now.last ≤ step.now.moment }
        requires single { IsSingle self.now.cores.items }
        requires apart { IsApart self.now.cores.items }
        requires early { All (λ s. last_now s ≤ self.now.last) self.now.cores.items }
        ensures ready { IsReady self.now.cores.items step.now result }
        ensures performs { (o : Options) (h : List Item) → PoolsStand (pool_options o) self.now.cores.items h → last_moment h ≡ self.now.last → length (description_of o h).servers ≤ 128 → Performs o self.now.cores.items step.now result h }
    {
        let Some(place) = self.index_of(&step.act) else {
            return self.without_pool(&step.act);
        };
        if self.names_known(&step.act) {
            return PoolDecision::Refused(Refused::RequestKnown);
        }
        self.ask(place, step)
    }
}

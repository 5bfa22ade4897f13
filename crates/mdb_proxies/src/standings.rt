//! The standing asks, and the charge where each stands.

ghost use Rattle.std.specs.Prelude.{◌≡◌, ◌<◌, ◌++◌, ◌∷◌, [], List, true, false, length, get_or, set, if◌then◌else◌, OnOk, OnErr};
ghost use Rattle.std.specs.List.{remove, HoldsAt};
ghost use Rattle.mdb_proxies.specs.declared.asked.Standing.{Standing as StandingRecord};
ghost use Rattle.mdb_proxies.specs.Standings.{standing_at, AreCounted, charge_in, recounted};
ghost use Rattle.mdb_proxies.specs.Tables.{after_entry, IsBest, KeepsCharge};

use crate::asked::Standing;
use crate::books::{Fate, best_of_all, charge, fate_by, is_standing_at};
use crate::freed::Freed;
use mdb_base::OutOfMemory;
use mdb_log::Entry;
use std::alloc::Global;
use std::marker::Model;

// With each of the asks stands the charge of its tenant at its address. It is counted anew where an ask comes, goes or is charged, so that
// none is counted for an ask that is only looked at.
#[derive(Drop)]
pub struct StandingAsks {
    asks: Vec<Standing>,
    charges: Vec<usize>,
}

impl Model for StandingAsks {
    ghost use Rattle.std.specs.Coded.{codes};
    ghost use Rattle.mdb_base.specs.DocumentCode.{fields_coded};
    ghost use Rattle.mdb_proxies.specs.Standings.{StandingView, AreCounted};

    ghost Value = { StandingView };

    ghost coded = { Prim.hlevel (codes, fields_coded) };

    ghost view = { λ s. record { items = s.asks.items } };

    ghost invariant = { λ s. AreCounted s.asks.items s.charges.items };
}

// The count at this place, where the charge is this at the tenant and the address of this one.
fn recount_at(
    standing: &[Standing],
    charges: &mut Vec<usize>,
    one: &Standing,
    count: usize,
    at: usize,
)
    requires within { at < length standing.now }
    requires among { length charges.old.items ≡ length standing.now }
    ensures { HoldsAt (λ o. charges.new.items ≡ if standing_at one.now.tenant one.now.address o then set charges.old.items at count else charges.old.items) standing.now at }
{
    let there = &standing[at];
    if is_standing_at(there, one.tenant, &one.address) {
        charges[at] = count;
    }
}

// Counts the charge where this one stands.
fn recount(standing: &[Standing], charges: &mut Vec<usize>, one: &Standing)
    requires { length charges.old.items ≡ length standing.now }
    ensures { charges.new.items ≡ recounted one.now.tenant one.now.address (charge_in standing.now one.now.tenant one.now.address) standing.now charges.old.items }
{
    let count = charge(standing, one.tenant, &one.address);
    for at in 0..standing.len() {
        recount_at(standing, charges, one, count, at);
    }
}

// The ask at this place, which was held back, is charged.
fn mark(standing: &mut Vec<Standing>, charges: &mut Vec<usize>, at: usize)
    requires counted { AreCounted standing.old.items charges.old.items }
    requires within { at < length standing.old.items }
    ensures counted { AreCounted standing.new.items charges.new.items }
    ensures marked { (o : StandingRecord) → o ≡ get_or standing.old.items at o → standing.new.items ≡ set standing.old.items at (record o { held = false }) }
{
    standing[at].held = false;
    recount(standing.as_slice(), charges, &standing[at]);
}

// The ask at this place goes.
fn take_out(standing: &mut Vec<Standing>, charges: &mut Vec<usize>, at: usize) -> Standing
    requires counted { AreCounted standing.old.items charges.old.items }
    requires within { at < length standing.old.items }
    ensures counted { AreCounted standing.new.items charges.new.items }
    ensures value { result ≡ get_or standing.old.items at result }
    ensures items { standing.new.items ≡ remove standing.old.items at }
{
    let gone = standing.remove(at);
    charges.remove(at);
    recount(standing.as_slice(), charges, &gone);
    gone
}

// What the newest entry makes of the standing asks, and where it frees some of a share.
fn take_entry(standing: &mut Vec<Standing>, charges: &mut Vec<usize>, entry: &Entry) -> Freed
    requires counted { AreCounted standing.old.items charges.old.items }
    ensures counted { AreCounted standing.new.items charges.new.items }
    ensures after_entry { standing.new.items ≡ after_entry entry.now standing.old.items }
    ensures freed { KeepsCharge result standing.old.items standing.new.items }
{
    let mut freed = Freed::Nowhere;
    let mut at = 0;
    while at < standing.len() {
        match fate_by(&standing[at], entry) {
            Fate::Stays => at += 1,
            Fate::Charged => {
                mark(standing, charges, at);
                at += 1;
            }
            Fate::Gone => {
                let gone = take_out(standing, charges, at);
                freed = freed.and_gone(gone);
            }
        }
    }
    freed
}

// One more of them, the last, which is held back.
fn push(
    standing: &mut Vec<Standing>,
    charges: &mut Vec<usize>,
    one: Standing,
) -> Result<(), OutOfMemory>
    requires counted { AreCounted standing.old.items charges.old.items }
    requires held { one.held ≡ true }
    ensures counted { AreCounted standing.new.items charges.new.items }
    ensures ok { OnOk result (standing.new.items ≡ standing.old.items ++ one ∷ []) }
    ensures err { OnErr result (standing.new.items ≡ standing.old.items) }
{
    standing.reserve(1)?;
    charges.reserve(1)?;
    let count = charge(standing.as_slice(), one.tenant, &one.address);
    charges.push_reserved(count);
    standing.push_reserved(one);
    Ok(())
}

// The last of them goes.
fn pop(standing: &mut Vec<Standing>, charges: &mut Vec<usize>)
    requires counted { AreCounted standing.old.items charges.old.items }
    ensures counted { AreCounted standing.new.items charges.new.items }
    ensures left { (os : List StandingRecord) (o : StandingRecord) → standing.old.items ≡ os ++ o ∷ [] → standing.new.items ≡ os }
{
    let count = standing.len();
    if count > 0 {
        let gone = take_out(standing, charges, count - 1);
        drop(gone);
    }
}

impl StandingAsks {
    pub fn new(alloc: Global) -> StandingAsks
        ensures { result.items ≡ [] }
    {
        StandingAsks {
            asks: Vec::new(alloc),
            charges: Vec::new(alloc),
        }
    }

    pub fn as_slice(&self) -> &[Standing]
        ensures { result.now ≡ self.now.items }
    {
        self.asks.as_slice()
    }

    // One more of them, the last, which is held back.
    pub fn push(&mut self, one: Standing) -> Result<(), OutOfMemory>
        requires { one.held ≡ true }
        ensures ok { OnOk result (self.new.items ≡ self.old.items ++ one ∷ []) }
        ensures err { OnErr result (self.new ≡ self.old) }
    {
        push(&mut self.asks, &mut self.charges, one)
    }

    // The last of them goes.
    pub fn pop(&mut self)
        ensures { (os : List StandingRecord) (o : StandingRecord) → self.old.items ≡ os ++ o ∷ [] → self.new.items ≡ os }
    {
        pop(&mut self.asks, &mut self.charges);
    }

    // What the newest entry makes of them, and where it frees some of a share.
    pub fn take_entry(&mut self, entry: &Entry) -> Freed
        ensures after_entry { self.new.items ≡ after_entry entry.now self.old.items }
        ensures freed { KeepsCharge result self.old.items self.new.items }
    {
        take_entry(&mut self.asks, &mut self.charges, entry)
    }

    // The place of the one that is handed on next: the first one of the tenant with the least number.
    pub fn best(&self, shares: &[u32]) -> Option<usize>
        ensures { IsBest shares.now self.now.items self.now.items result }
    {
        best_of_all(shares, self.asks.as_slice(), self.charges.as_slice())
    }
}

//! All pools that a driver opened, of which memory keeps those in which something lives.

ghost use Rattle.std.specs.Prelude.{◌≡◌, ◌==◌, ◌+◌, ◌≤◌, ◌<◌, ◌++◌, ◌∷◌, [], List, IfOk, OnOk, OnErr, All, Some, None, true, find, length, option_copied, option_map, position, slice_get, vec_capacity};
ghost use Rattle.mdb_log.specs.Acts.{IsPoolAct};
ghost use Rattle.mdb_pool.specs.Core.{PoolCore as Core};
ghost use Rattle.mdb_pool.specs.Now.{has_job_now, holds_now, is_open_now};
ghost use Rattle.mdb_pool.specs.Planning.{IsPlanOf, LeadsTo, Plans};
ghost use Rattle.mdb_pool.specs.Refusing.{refusal_now, TellsNew};
ghost use Rattle.mdb_driver_pools.specs.Asking.{DoesAt};
ghost use Rattle.mdb_driver_pools.specs.Finding.{asked_by, asks_in, first_job, holder, holds_in, opens_in};
ghost use Rattle.mdb_driver_pools.specs.Living.{if_at, index_in, left_at, lives_at, living_at, living_from};
ghost use Rattle.mdb_driver_pools.specs.Standing.{at_address, is_open_at, IsApart, IsSingle};

use crate::hints::{Hints, number_of};
use crate::placed::Placed;
use crate::pool_queries::{has_job, holds, is_closed, is_open};
use mdb_base::{OutOfMemory, ServerAddress};
use mdb_log::{Log, Reply, Step};
use mdb_past::{Past, Tells};
use mdb_pool::PoolCore;
use mdb_pool::planning::{Answered, Plan, apply, prepare};
use std::alloc::Global;
use std::marker::Model;

// Up to so many pools are walked over, and no guesses are kept.
const FEW: usize = 8;

/// All pools that a driver opened. Contracts see them all; memory keeps those in which something lives, in the order in which they were opened.
#[derive(Drop)]
pub struct Cores {
    living: Vec<Placed>,
    // Where parties and addresses were last found.
    parties: Hints,
    addresses: Hints,
    // How many were opened.
    opened: usize,
    // How many there may be before memory is wanted.
    room: usize,
    // All of them as they are. One that left is as it was then.
    all: Past<PoolCore>,
}

impl Model for Cores {
    ghost use Rattle.std.specs.Prelude.{◌≡◌, ◌+◌, ◌≤◌, length, vec_capacity};
    ghost use Rattle.mdb_driver_pools.specs.Living.{living_from, PoolList};

    ghost Value = { PoolList };

    ghost view = { λ c. record { items = c.all.value; room = c.room } };

    ghost invariant = { λ c. (c.living.items ≡ living_from 0 c.all.value) × (c.opened ≡ length c.all.value) × (c.opened ≤ c.room) × (length c.living.items + c.room ≤ vec_capacity c.living + c.opened) };
}

// One more pool comes.
struct OneMore;

impl<'a> Tells<(&'a Past<PoolCore>, &'a PoolCore), PoolCore> for OneMore {
    ghost use Rattle.std.specs.Prelude.{◌++◌, ◌∷◌, []};

    ghost told = { λ x. x.0.now.value ++ x.1.now ∷ [] };
}

// The pool at the place is another one.
struct Changed;

impl<'a> Tells<(&'a Past<PoolCore>, &'a Placed), PoolCore> for Changed {
    ghost use Rattle.std.specs.Prelude.{set};

    ghost told = { λ x. set x.0.now.value x.1.now.place x.1.now.core };
}

// The pool is open, and at the address.
pub(crate) fn is_open_at(pool: &PoolCore, address: &ServerAddress) -> bool
    ensures { result ≡ is_open_at address.now pool.now }
{
    !is_closed(pool) && pool.address().is(address)
}

// The first of the pools that is open at the address.
fn first_open<'a>(living: &'a [Placed], address: &ServerAddress) -> Option<&'a Placed>
    ensures { option_copied result ≡ find (λ x. is_open_at address.now x.core) living.now }
{
    living
        .iter()
        .find(|placed| is_open_at(&placed.core, address))
}

// The first in which the request is open.
fn first_asked(living: &[Placed], party: u32) -> Option<&Placed>
    ensures { option_copied result ≡ find (λ x. is_open_now x.core party) living.now }
{
    living.iter().find(|placed| is_open(&placed.core, party))
}

// The first of which the party holds a connection.
fn first_held(living: &[Placed], party: u32) -> Option<&Placed>
    ensures { option_copied result ≡ find (λ x. holds_now x.core party) living.now }
{
    living.iter().find(|placed| holds(&placed.core, party))
}

// The first that has a job.
fn first_with_job(living: &[Placed]) -> Option<&Placed>
    ensures { option_copied result ≡ find (λ x. has_job_now x.core) living.now }
{
    living.iter().find(|placed| has_job(&placed.core))
}

// The one at the place.
fn placed_at(living: &[Placed], place: usize) -> Option<&Placed>
    ensures { option_copied result ≡ find (λ x. x.place == place) living.now }
{
    living.iter().find(|placed| placed.place == place)
}

// The place of the pool that was found.
fn place_of(found: Option<&Placed>) -> Option<usize>
    ensures { result ≡ option_map (λ x. x.place) (option_copied found.entry) }
{
    match found {
        Some(placed) => Some(placed.place),
        None => None,
    }
}

// The pool comes last, where something lives in it.
fn keep(living: &mut Vec<Placed>, place: usize, core: PoolCore)
    requires { length living.old.items < vec_capacity living.old }
    ensures items { living.new.items ≡ living.old.items ++ living_from place (core ∷ []) }
    ensures capacity { vec_capacity living.new ≡ vec_capacity living.old }
{
    if core.is_spent() {
        drop(core);
        return;
    }
    living.push_reserved(Placed { place, core });
}

// The pool at the index leaves memory, where nothing lives in it.
fn let_go(living: &mut Vec<Placed>, index: usize)
    requires { index < length living.old.items }
    ensures items { living.new.items ≡ left_at living.old.items index }
    ensures capacity { vec_capacity living.new ≡ vec_capacity living.old }
{
    if !living[index].core.is_spent() {
        return;
    }
    let gone = living.remove(index);
    drop(gone);
}

// The one at the index, where its place is this one.
fn guessed(living: &[Placed], index: usize, place: usize) -> Option<&Placed>
    ensures { option_copied result ≡ if_at place (slice_get living.now index) }
{
    match living.get(index) {
        Some(placed) if placed.place == place => Some(placed),
        _ => None,
    }
}

// The index of the one at the place.
fn index_at(living: &[Placed], place: usize) -> Option<usize>
    ensures { result ≡ position (λ x. x.place == place) living.now }
{
    living.iter().position(|placed| placed.place == place)
}

impl Cores {
    ghost use Rattle.mdb_driver_pools.specs.Planned.{Leads};
    ghost use Rattle.mdb_driver_pools.specs.declared.pool_change.PoolChange.TheVariants.{Alter};

    /// None was opened.
    pub fn new(alloc: Global) -> Cores
        ensures { result.items ≡ [] }
    {
        Cores {
            living: Vec::new(alloc),
            parties: Hints::new(alloc),
            addresses: Hints::new(alloc),
            opened: 0,
            room: 0,
            all: Past::none(),
        }
    }

    /// How many were opened.
    pub fn len(&self) -> usize
        ensures { result ≡ length self.now.items }
    {
        self.opened
    }

    // Where the pool at the place may stand in memory: of those that left, most stood before it.
    fn guess(&self, place: usize) -> usize {
        place.saturating_sub(self.opened.saturating_sub(self.living.len()))
    }

    // Where memory keeps the pool at the place.
    fn index_of(&self, place: usize) -> Option<usize>
        ensures { result ≡ index_in self.now.items place }
    {
        let living = self.living.as_slice();
        let guess = self.guess(place);
        match guessed(living, guess, place) {
            Some(_) => Some(guess),
            None => index_at(living, place),
        }
    }

    /// The pool at the place, where something lives in it.
    pub fn get(&self, place: usize) -> Option<&PoolCore>
        ensures { option_copied result ≡ living_at self.now.items place }
    {
        let living = self.living.as_slice();
        if let Some(guess) = guessed(living, self.guess(place), place) {
            return Some(&guess.core);
        }
        match placed_at(living, place) {
            Some(placed) => Some(&placed.core),
            None => None,
        }
    }

    /// Something lives in the pool at the place.
    pub fn lives(&self, place: usize) -> bool
        ensures { result ≡ lives_at self.now.items place }
    {
        self.get(place).is_some()
    }

    /// The pool at the place, in which something lives.
    pub fn at(&self, place: usize) -> &PoolCore
        requires { lives_at self.now.items place ≡ true }
        ensures { slice_get self.now.items place ≡ Some result.now }
    {
        match self.get(place) {
            Some(core) => core,
            None => unreachable!(),
        }
    }

    /// The place of the pool that is open at the address.
    pub(crate) fn open_at(&self, address: &ServerAddress) -> Option<usize>
        ensures { result ≡ at_address self.now.items address.now }
    {
        place_of(first_open(self.living.as_slice(), address))
    }

    // The pool at the place is open at the address.
    fn opens_at(&self, place: usize, address: &ServerAddress) -> bool
        ensures { result ≡ opens_in (living_at self.now.items place) address.now }
    {
        match self.get(place) {
            Some(core) => is_open_at(core, address),
            None => false,
        }
    }

    // In the pool at the place the request is open.
    fn asks_at(&self, place: usize, party: u32) -> bool
        ensures { result ≡ asks_in (living_at self.now.items place) party }
    {
        match self.get(place) {
            Some(core) => is_open(core, party),
            None => false,
        }
    }

    // Of the pool at the place the party holds a connection.
    fn holds_at(&self, place: usize, party: u32) -> bool
        ensures { result ≡ holds_in (living_at self.now.items place) party }
    {
        match self.get(place) {
            Some(core) => holds(core, party),
            None => false,
        }
    }

    /// The place of the pool that is open at the address: the one that was opened last for its number is looked at first.
    pub(crate) fn found_open_at(&self, address: &ServerAddress) -> Option<usize>
        requires { IsSingle self.now.items }
        ensures { result ≡ at_address self.now.items address.now }
    {
        if self.living.len() <= FEW {
            return self.open_at(address);
        }
        let place = self.addresses.at(number_of(address));
        if self.opens_at(place, address) {
            return Some(place);
        }
        self.open_at(address)
    }

    // The place of the first pool in which the request is open.
    fn first_asked(&self, party: u32) -> Option<usize>
        ensures { result ≡ asked_by self.now.items party }
    {
        place_of(first_asked(self.living.as_slice(), party))
    }

    /// The place of the pool in which the request is open: the one that it came to is looked at first.
    pub(crate) fn asked_by(&self, party: u32) -> Option<usize>
        requires { IsApart self.now.items }
        ensures { result ≡ asked_by self.now.items party }
    {
        let place = self.parties.at(party);
        if self.asks_at(place, party) {
            return Some(place);
        }
        self.first_asked(party)
    }

    /// The place of the pool of which the party holds a connection: the one that it came to is looked at first.
    pub(crate) fn found_holder(&self, party: u32) -> Option<usize>
        requires { IsApart self.now.items }
        ensures { result ≡ holder self.now.items party }
    {
        let place = self.parties.at(party);
        if self.holds_at(place, party) {
            return Some(place);
        }
        self.holder(party)
    }

    /// The place of the pool of which the party holds a connection.
    pub fn holder(&self, party: u32) -> Option<usize>
        ensures { result ≡ holder self.now.items party }
    {
        place_of(first_held(self.living.as_slice(), party))
    }

    /// The place of the first pool that has a job.
    pub(crate) fn first_job(&self) -> Option<usize>
        ensures { result ≡ first_job self.now.items }
    {
        place_of(first_with_job(self.living.as_slice()))
    }

    /// Room for so many more pools, so that opening them takes no memory.
    pub fn reserve(&mut self, more: usize) -> Result<(), OutOfMemory>
        ensures items { self.new.items ≡ self.old.items }
        ensures room { OnOk result (length self.new.items + more ≤ self.new.room) }
    {
        let Some(room) = self.opened.checked_add(more) else {
            return Err(OutOfMemory);
        };
        self.living.reserve(more)?;
        if FEW < self.living.len().saturating_add(more) {
            self.parties.begin()?;
            self.addresses.begin()?;
        }
        if self.room < room {
            self.room = room;
        }
        Ok(())
    }

    /// One more pool comes last, for which there is room.
    pub fn push_reserved(&mut self, core: PoolCore)
        requires { length self.old.items < self.old.room }
        ensures items { self.new.items ≡ self.old.items ++ core ∷ [] }
        ensures room { self.new.room ≡ self.old.room }
    {
        let all = Past::of::<(&Past<PoolCore>, &PoolCore), OneMore>(&(&self.all, &core));
        let place = self.opened;
        self.addresses.note(number_of(core.address()), place);
        keep(&mut self.living, place, core);
        self.opened += 1;
        self.all = all;
    }

    /// The first part of steps of the pool at the place, in which something lives: it answers them, and plans their change. All pools stay as they are.
    pub(crate) fn prepare(
        &mut self,
        alloc: Global,
        place: usize,
        steps: &[Step],
    ) -> Result<(Vec<Answered>, Plan), OutOfMemory>
        requires lives { lives_at self.old.items place ≡ true }
        requires acts { (s : Core) → slice_get self.old.items place ≡ Some s → All (λ step. IsPoolAct s.pool step.act) steps.now }
        requires new { (s : Core) → slice_get self.old.items place ≡ Some s → TellsNew s steps.now }
        ensures same { self.new ≡ self.old }
        ensures plan { IfOk result (λ made. (s : Core) → slice_get self.old.items place ≡ Some s → IsPlanOf made.1 s) }
        ensures does { IfOk result (λ made. (s t : Core) → slice_get self.old.items place ≡ Some s → Plans made.1 s t → LeadsTo s t steps.now made.0.items) }
    {
        let Some(index) = self.index_of(place) else {
            unreachable!()
        };
        prepare(alloc, &mut self.living[index].core, steps)
    }

    /// The second part: the pool at the place changes as it was planned, and leaves memory where nothing lives in it then. It takes no memory.
    pub(crate) fn apply(&mut self, place: usize, plan: Plan)
        requires leads { (later : List Core) × Leads (Alter place plan) self.old.items later }
        ensures led { (later : List Core) → Leads (Alter place plan) self.old.items later → later ≡ self.new.items }
        ensures len { length self.new.items ≡ length self.old.items }
        ensures room { self.new.room ≡ self.old.room }
    {
        let Some(index) = self.index_of(place) else {
            unreachable!()
        };
        apply(&mut self.living[index].core, plan);
        let all = Past::of::<(&Past<PoolCore>, &Placed), Changed>(&(
            &self.all,
            &self.living[index],
        ));
        let_go(&mut self.living, index);
        self.all = all;
    }

    /// A step that the pool at the place does not refuse is done there, and logged. A pool in which nothing lives then leaves memory. Where there is no memory the pools and the log are as they were.
    pub fn enter_step(
        &mut self,
        alloc: Global,
        log: &mut Log,
        seat: u32,
        step: &Step,
        place: usize,
    ) -> Result<Reply, OutOfMemory>
        requires lives { lives_at self.old.items place ≡ true }
        requires act { (s : Core) → slice_get self.old.items place ≡ Some s → IsPoolAct s.pool step.now.act }
        requires passes { (s : Core) → slice_get self.old.items place ≡ Some s → refusal_now s step.now ≡ None }
        ensures does { IfOk result (λ reply. (s : Core) → slice_get self.old.items place ≡ Some s → DoesAt s self.old.items place self.new.items log.old log.new seat step.now reply) }
        ensures err_items { OnErr result (self.new.items ≡ self.old.items) }
        ensures err_log { OnErr result (log.new ≡ log.old) }
        ensures room { self.new.room ≡ self.old.room }
    {
        let Some(index) = self.index_of(place) else {
            unreachable!()
        };
        let reply = self.living[index].core.enter_step(alloc, log, seat, step)?;
        let all = Past::of::<(&Past<PoolCore>, &Placed), Changed>(&(
            &self.all,
            &self.living[index],
        ));
        let_go(&mut self.living, index);
        self.all = all;
        self.parties.note_act(&step.act, place);
        Ok(reply)
    }
}

//! The connections of a pool and its clears, with changes that can be taken back.

ghost use Rattle.std.specs.Prelude.{◌≡◌, ◌+◌, ◌&&◌, ◌∷◌, ◌++◌, [], true, false, not, count_by, filter, find, is_some, length, nat_lt, IfOk, OnOk, OnErr, option_copied, Some};
ghost use Rattle.mdb_log.specs.Connections.{has};
ghost use Rattle.mdb_slots.specs.Items.{records_of};
ghost use Rattle.mdb_slots.specs.Keyed.{after_key, entry_at, last_of, others, put, rest_of, swap};
ghost use Rattle.mdb_slots.specs.Open.{or_else};
ghost use Rattle.mdb_slots.specs.Sided.{nothing_sided, noted, sided_after, sided_capacity_after, stays, SidedFits, SidedPlans};
ghost use Rattle.mdb_slots.specs.Slots.{listing};
ghost use Rattle.mdb_slots.specs.Table.{items};
ghost use Rattle.std.specs.List.Sorted.{IsStrictlySortedBy};
ghost use Rattle.mdb_base.specs.declared.object_id.ObjectId.{ObjectId};
ghost use Rattle.mdb_pool.specs.Kept.Claiming.{claimed_after, no_claims, ClaimsFit};
ghost use Rattle.mdb_pool.specs.Kept.Clearing.{cleared_after, ClearsFit};
ghost use Rattle.mdb_pool_rules.specs.Jobs.{has_id, id_order};
ghost use Rattle.mdb_pool.specs.Kept.Values.{clears_before, clears_for, timeouts_in};
ghost use Rattle.mdb_pool.specs.Kept.Places.{is_available, is_pending};

use crate::kept::claims::{Claims, ClaimsRedo};
use crate::kept::clear_counts::{ClearCounts, ClearCountsRedo};
use crate::kept::connection::Connection;
use crate::kept::marks::{count, services_before, with_clear};
use crate::kept::status::Clear;
use mdb_base::{ObjectId, OutOfMemory};
use mdb_slots::{Sides, SidesRedo, SlotTable};
use std::alloc::{AllocError, Global};
use std::marker::Model;

/// The connections that live, how many were created, and which of them claims were told of. A claim is told of the pending connection that was created
/// first among those that no claim was told of: so the last one that was claimed tells of each pending one whether it is. Beside it how often the pool was
/// cleared, and of each connection that lives how often before it.
#[derive(Drop)]
pub struct Connections {
    live: Sides<Connection>,
    claims: Claims,
    clears: ClearCounts,
}

impl Model for Connections {
    ghost use Rattle.mdb_slots.specs.Table.{items};
    ghost use Rattle.mdb_pool.specs.Kept.Claiming.{ClaimsFit};
    ghost use Rattle.mdb_pool.specs.Kept.Clearing.{ClearsFit};
    ghost use Rattle.mdb_pool.specs.Kept.Connecting.{OpenConnections};

    ghost Value = { OpenConnections };

    ghost view = { λ c. record { now = c.live.now; base = c.live.base; capacity = c.live.capacity; created = c.claims.created; claimed = c.claims.now.numbers; settled = c.claims.base; clears = c.clears.now.all; cleared = c.clears.base } };

    ghost invariant = { λ c. ClaimsFit c.claims.created.now c.claims.now c.live.now × ClaimsFit c.claims.created.base c.claims.base (items c.live.base.table) × ClearsFit c.claims.created.now c.clears.now c.live.now × ClearsFit c.claims.created.base c.clears.base (items c.live.base.table) };
}

/// Changes that were taken back, to be made again.
#[derive(Drop)]
pub struct ConnectionsRedo {
    live: SidesRedo<Connection>,
    claims: ClaimsRedo,
    clears: ClearCountsRedo,
}

impl Model for ConnectionsRedo {
    ghost use Rattle.mdb_pool.specs.Kept.Connecting.{ConnectionSteps};

    ghost Value = { ConnectionSteps };

    ghost view = { λ t. record { live = t.live; created = t.claims.created; claimed = t.claims.claimed; clears = t.clears } };
}

// The first pending one whose number is greater.
fn first_after(live: &Sides<Connection>, last: u32) -> Option<&Connection>
    ensures { option_copied result ≡ find (λ x. nat_lt last x.id) (filter (λ x. is_pending x.place) live.now.now) }
{
    let mut next = live.first_right();
    while let Some(x) = next {
        if last < x.id {
            return Some(x);
        }
        next = live.next_right(x.id);
    }
    None
}

// The available and the pending ones go. Where there is no memory all changes go.
fn let_go(live: &mut Sides<Connection>, alloc: Global) -> Result<(), OutOfMemory>
    ensures now { OnOk result (live.new.now ≡ filter (λ x. not (is_pending x.place)) (filter (λ x. not (is_available x.place)) live.old.now)) }
    ensures gone { OnErr result (live.new.now ≡ items live.old.base.table) }
    ensures base { live.new.base ≡ live.old.base }
    ensures capacity { live.new.capacity ≡ live.old.capacity }
{
    live.clear_left(alloc)?;
    live.clear_right(alloc)
}

impl Connections {
    /// None was created.
    pub(crate) fn new(alloc: Global) -> Connections
        ensures now { result.now ≡ [] }
        ensures base { result.base ≡ nothing_sided }
        ensures created { result.created ≡ record { now = 0; base = 0 } }
        ensures claimed { result.claimed ≡ [] }
        ensures settled { result.settled ≡ no_claims }
        ensures clears { result.clears ≡ [] }
        ensures cleared { (result.cleared.all ≡ []) }
    {
        Connections {
            live: Sides::new(alloc),
            claims: Claims::none(),
            clears: ClearCounts::none(alloc),
        }
    }

    /// How many were created.
    pub(crate) fn created(&self) -> u32
        ensures { result ≡ self.now.created.now }
    {
        self.claims.created()
    }

    /// How many live.
    pub(crate) fn len(&self) -> usize
        ensures { result ≡ length self.now.now }
    {
        self.live.len()
    }

    /// The one that has the number.
    pub(crate) fn get(&self, id: u32) -> Option<&Connection>
        ensures { option_copied result ≡ entry_at (λ x. x.id) id self.now.now }
    {
        self.live.get(id)
    }

    /// The first available one.
    pub(crate) fn first_left(&self) -> Option<&Connection>
        ensures value { option_copied result ≡ find (λ x. is_available x.place) self.now.now }
        ensures rest { rest_of (λ x. x.id) (option_copied result) (filter (λ x. is_available x.place) self.now.now) ≡ filter (λ x. is_available x.place) self.now.now }
    {
        self.live.first_left()
    }

    /// The last available one.
    pub(crate) fn last_left(&self) -> Option<&Connection>
        ensures { option_copied result ≡ last_of (filter (λ x. is_available x.place) self.now.now) }
    {
        self.live.last_left()
    }

    /// The available one that follows it.
    pub(crate) fn next_left(&self, id: u32) -> Option<&Connection>
        ensures { rest_of (λ x. x.id) (option_copied result) (filter (λ x. is_available x.place) self.now.now) ≡ after_key (λ x. x.id) id (filter (λ x. is_available x.place) self.now.now) }
    {
        self.live.next_left(id)
    }

    /// The available ones in their slots.
    pub(crate) fn left_slots(&self) -> &SlotTable
        ensures { records_of (listing result.now).items ≡ noted (λ x. x.id) (λ x. x.service) (λ x. x.since) (λ x. is_available x.place) self.now.now }
    {
        self.live.left_slots()
    }

    /// The first pending one.
    pub(crate) fn first_right(&self) -> Option<&Connection>
        ensures value { option_copied result ≡ find (λ x. is_pending x.place) self.now.now }
        ensures rest { rest_of (λ x. x.id) (option_copied result) (filter (λ x. is_pending x.place) self.now.now) ≡ filter (λ x. is_pending x.place) self.now.now }
    {
        self.live.first_right()
    }

    /// The pending one that follows it.
    pub(crate) fn next_right(&self, id: u32) -> Option<&Connection>
        ensures { rest_of (λ x. x.id) (option_copied result) (filter (λ x. is_pending x.place) self.now.now) ≡ after_key (λ x. x.id) id (filter (λ x. is_pending x.place) self.now.now) }
    {
        self.live.next_right(id)
    }

    /// How many are pending.
    #[tactic(auto, using(crate::proofs::Listed::Beside::numbered_length))]
    pub(crate) fn pending_count(&self) -> usize
        ensures { result ≡ count_by (λ x. is_pending x.place) self.now.now }
    {
        self.live.right().len()
    }

    /// How many are available.
    #[tactic(auto, using(crate::proofs::Listed::Beside::listed_length))]
    pub(crate) fn available_count(&self) -> usize
        ensures { result ≡ count_by (λ x. is_available x.place) self.now.now }
    {
        self.live.left().len()
    }

    /// The pending one that came first among those that no claim was told of.
    pub(crate) fn first_unclaimed(&self) -> Option<&Connection>
        ensures { option_copied result ≡ find (λ x. is_pending x.place && not (has x.id self.now.claimed)) self.now.now }
    {
        first_after(&self.live, self.claims.last())
    }

    /// How often the pool was cleared: for the service, or as a whole where there is none.
    pub(crate) fn generation(&self, service: Option<ObjectId>) -> u64
        ensures { result ≡ clears_for service self.now.clears }
    {
        count(self.clears.marks(), service, None)
    }

    /// How often so before the connection, which lives, was created.
    pub(crate) fn generation_before(&self, id: u32, service: Option<ObjectId>) -> u64
        requires { is_some (entry_at (λ x. x.id) id self.now.now) ≡ true }
        ensures { result ≡ clears_before id service self.now.clears }
    {
        count(self.clears.marks(), service, Some(id))
    }

    /// How many of the clears were by a network timeout.
    pub(crate) fn timeouts(&self) -> usize
        ensures { result ≡ timeouts_in self.now.clears }
    {
        self.clears.marks().timeouts
    }

    /// The services that were cleared before the connection, which lives, was created: each once, in the order of the ids.
    pub(crate) fn services_before(
        &self,
        alloc: Global,
        id: u32,
    ) -> Result<Vec<ObjectId>, AllocError>
        requires { is_some (entry_at (λ x. x.id) id self.now.now) ≡ true }
        ensures ascend { IfOk result (λ services. IsStrictlySortedBy id_order services.items) }
        ensures members { IfOk result (λ services. (t : ObjectId) → has_id t services.items ≡ nat_lt 0 (clears_before id (Some t) self.now.clears)) }
    {
        let marks = self.clears.marks();
        let services = services_before(alloc, marks.list.as_slice(), id)?;
        Ok(services)
    }

    /// The pool, or a service of it, is cleared. Nothing changes where there is no memory.
    pub(crate) fn clear(
        &mut self,
        alloc: Global,
        service: Option<ObjectId>,
        timeout: bool,
    ) -> Result<(), OutOfMemory>
        ensures clears { OnOk result (self.new.clears ≡ self.old.clears ++ record { service = service; after = self.old.created.now; timeout = timeout } ∷ []) }
        ensures now { (self.new.now ≡ self.old.now) × (self.new.created ≡ self.old.created) × (self.new.claimed ≡ self.old.claimed) }
        ensures base { (self.new.base ≡ self.old.base) × (self.new.settled ≡ self.old.settled) × (self.new.cleared ≡ self.old.cleared) }
        ensures capacity { self.new.capacity ≡ self.old.capacity }
    {
        let after = self.claims.created();
        let marks = with_clear(
            alloc,
            &self.live,
            after,
            self.clears.marks(),
            service,
            timeout,
        )?;
        let clear = Clear {
            service,
            after,
            timeout,
        };
        self.clears.push(clear, marks);
        Ok(())
    }

    /// A claim is told of the connection, which came first among the pending ones that no claim was told of. It takes no memory.
    pub(crate) fn claim(&mut self, connection: &Connection)
        requires { find (λ x. is_pending x.place && not (has x.id self.old.claimed)) self.old.now ≡ Some connection.now }
        ensures now { self.new.now ≡ self.old.now }
        ensures base { (self.new.base ≡ self.old.base) × (self.new.settled ≡ self.old.settled) × (self.new.cleared ≡ self.old.cleared) }
        ensures capacity { self.new.capacity ≡ self.old.capacity }
        ensures created { (self.new.created ≡ self.old.created) × (self.new.clears ≡ self.old.clears) }
        ensures claimed { self.new.claimed ≡ self.old.claimed ++ connection.now.id ∷ [] }
    {
        self.claims.claim(connection.id);
    }

    /// The connection, which is the next one that is created and pending, comes last. Where there is no memory all changes go.
    pub(crate) fn create(
        &mut self,
        alloc: Global,
        connection: Connection,
    ) -> Result<(), OutOfMemory>
        requires id { connection.id ≡ self.old.created.now + 1 }
        requires pending { is_pending connection.place ≡ true }
        ensures now { OnOk result (self.new.now ≡ put (λ x. x.id) connection self.old.now) }
        ensures created { OnOk result (self.new.created.now ≡ connection.id) }
        ensures claimed { OnOk result ((self.new.claimed ≡ self.old.claimed) × (self.new.clears ≡ self.old.clears)) }
        ensures base { (self.new.base ≡ self.old.base) × (self.new.created.base ≡ self.old.created.base) × (self.new.settled ≡ self.old.settled) × (self.new.cleared ≡ self.old.cleared) }
        ensures capacity { self.new.capacity ≡ self.old.capacity }
    {
        let id = connection.id;
        match self.live.put(alloc, connection) {
            Ok(()) => {
                self.claims.create(id);
                Ok(())
            }
            Err(e) => {
                self.claims.roll_back();
                self.clears.roll_back();
                Err(e)
            }
        }
    }

    /// The connection, which lives and is not pending, comes last, in place of the one that had its number. Where there is no memory all changes go.
    pub(crate) fn put(&mut self, alloc: Global, connection: Connection) -> Result<(), OutOfMemory>
        requires pending { is_pending connection.place ≡ false }
        requires lives { is_some (entry_at (λ x. x.id) connection.id self.old.now) ≡ true }
        ensures now { OnOk result (self.new.now ≡ put (λ x. x.id) connection self.old.now) }
        ensures numbers { OnOk result ((self.new.created.now ≡ self.old.created.now) × (self.new.claimed ≡ self.old.claimed) × (self.new.clears ≡ self.old.clears)) }
        ensures base { (self.new.base ≡ self.old.base) × (self.new.created.base ≡ self.old.created.base) × (self.new.settled ≡ self.old.settled) × (self.new.cleared ≡ self.old.cleared) }
        ensures capacity { self.new.capacity ≡ self.old.capacity }
    {
        match self.live.put(alloc, connection) {
            Ok(()) => Ok(()),
            Err(e) => {
                self.claims.roll_back();
                self.clears.roll_back();
                Err(e)
            }
        }
    }

    /// The connection takes the place of the one that had its number. Where there is no memory all changes go.
    pub(crate) fn replace(
        &mut self,
        alloc: Global,
        connection: Connection,
    ) -> Result<(), OutOfMemory>
        requires available { stays (λ x. is_available x.place) connection (entry_at (λ x. x.id) connection.id self.old.now) ≡ true }
        requires pending { stays (λ x. is_pending x.place) connection (entry_at (λ x. x.id) connection.id self.old.now) ≡ true }
        ensures now { OnOk result (self.new.now ≡ swap (λ x. x.id) connection self.old.now) }
        ensures numbers { OnOk result ((self.new.created.now ≡ self.old.created.now) × (self.new.claimed ≡ self.old.claimed) × (self.new.clears ≡ self.old.clears)) }
        ensures base { (self.new.base ≡ self.old.base) × (self.new.created.base ≡ self.old.created.base) × (self.new.settled ≡ self.old.settled) × (self.new.cleared ≡ self.old.cleared) }
        ensures capacity { self.new.capacity ≡ self.old.capacity }
    {
        // It tells that no number stands twice.
        let _count = self.live.len();
        match self.live.replace(alloc, connection) {
            Ok(()) => Ok(()),
            Err(e) => {
                self.claims.roll_back();
                self.clears.roll_back();
                Err(e)
            }
        }
    }

    /// The one that has the number goes. Where there is no memory all changes go.
    pub(crate) fn remove(&mut self, alloc: Global, id: u32) -> Result<(), OutOfMemory>
        ensures now { OnOk result (self.new.now ≡ others (λ x. x.id) id self.old.now) }
        ensures numbers { OnOk result ((self.new.created.now ≡ self.old.created.now) × (self.new.claimed ≡ self.old.claimed) × (self.new.clears ≡ self.old.clears)) }
        ensures base { (self.new.base ≡ self.old.base) × (self.new.created.base ≡ self.old.created.base) × (self.new.settled ≡ self.old.settled) × (self.new.cleared ≡ self.old.cleared) }
        ensures capacity { self.new.capacity ≡ self.old.capacity }
    {
        match self.live.remove(alloc, id) {
            Ok(()) => Ok(()),
            Err(e) => {
                self.claims.roll_back();
                self.clears.roll_back();
                Err(e)
            }
        }
    }

    /// The available and the pending ones go. Where there is no memory all changes go.
    pub(crate) fn close(&mut self, alloc: Global) -> Result<(), OutOfMemory>
        ensures now { OnOk result (self.new.now ≡ filter (λ x. not (is_pending x.place)) (filter (λ x. not (is_available x.place)) self.old.now)) }
        ensures numbers { OnOk result ((self.new.created.now ≡ self.old.created.now) × (self.new.claimed ≡ self.old.claimed) × (self.new.clears ≡ self.old.clears)) }
        ensures base { (self.new.base ≡ self.old.base) × (self.new.created.base ≡ self.old.created.base) × (self.new.settled ≡ self.old.settled) × (self.new.cleared ≡ self.old.cleared) }
        ensures capacity { self.new.capacity ≡ self.old.capacity }
    {
        match let_go(&mut self.live, alloc) {
            Ok(()) => Ok(()),
            Err(e) => {
                self.claims.roll_back();
                self.clears.roll_back();
                Err(e)
            }
        }
    }

    /// The changes go, and what comes back makes them again. It takes no memory.
    pub(crate) fn undo(&mut self, alloc: Global) -> ConnectionsRedo
        ensures now { self.new.now ≡ items self.old.base.table }
        ensures numbers { (self.new.created.now ≡ self.old.created.base) × (self.new.claimed ≡ self.old.settled.numbers) × (self.new.clears ≡ self.old.cleared.all) }
        ensures base { (self.new.base ≡ self.old.base) × (self.new.created.base ≡ self.old.created.base) × (self.new.settled ≡ self.old.settled) × (self.new.cleared ≡ self.old.cleared) }
        ensures capacity { self.new.capacity ≡ self.old.capacity }
        ensures plan { SidedPlans (λ x. x.id) (λ x. x.service) (λ x. x.since) (λ x. is_available x.place) (λ x. is_pending x.place) result.live self.new.base self.new.capacity self.old.now }
        ensures onto { (or_else result.created self.new.created.base ≡ self.old.created.now) × ((claimed_after result.claimed self.new.settled).numbers ≡ self.old.claimed) × ((cleared_after result.clears self.new.cleared).all ≡ self.old.clears) }
        ensures fits { ClaimsFit (or_else result.created self.new.created.base) (claimed_after result.claimed self.new.settled) (items (sided_after result.live self.new.base).table) }
        ensures fits_clears { ClearsFit (or_else result.created self.new.created.base) (cleared_after result.clears self.new.cleared) (items (sided_after result.live self.new.base).table) }
    {
        ConnectionsRedo {
            live: self.live.undo(alloc),
            claims: self.claims.undo(),
            clears: self.clears.undo(),
        }
    }

    /// Whatever was changed goes, and the changes are made again and stay. It takes no memory.
    pub(crate) fn redo(&mut self, redo: ConnectionsRedo)
        requires live { SidedFits (λ x. x.id) (λ x. x.service) (λ x. x.since) (λ x. is_available x.place) (λ x. is_pending x.place) redo.live self.old.base self.old.capacity }
        requires claims { ClaimsFit (or_else redo.created self.old.created.base) (claimed_after redo.claimed self.old.settled) (items (sided_after redo.live self.old.base).table) }
        requires clears { ClearsFit (or_else redo.created self.old.created.base) (cleared_after redo.clears self.old.cleared) (items (sided_after redo.live self.old.base).table) }
        ensures base { (self.new.base ≡ sided_after redo.live self.old.base) × (self.new.created.base ≡ or_else redo.created self.old.created.base) × (self.new.settled ≡ claimed_after redo.claimed self.old.settled) × (self.new.cleared ≡ cleared_after redo.clears self.old.cleared) }
        ensures now { (self.new.now ≡ items self.new.base.table) × (self.new.created.now ≡ self.new.created.base) × (self.new.claimed ≡ self.new.settled.numbers) × (self.new.clears ≡ self.new.cleared.all) }
        ensures capacity { self.new.capacity ≡ sided_capacity_after redo.live self.old.capacity }
    {
        let ConnectionsRedo {
            live,
            claims,
            clears,
        } = redo;
        self.live.redo(live);
        self.claims.redo(claims);
        self.clears.redo(clears);
    }

    /// The changes stay. It takes no memory.
    pub(crate) fn commit(&mut self)
        ensures now { (self.new.now ≡ self.old.now) × (self.new.created.now ≡ self.old.created.now) × (self.new.claimed ≡ self.old.claimed) × (self.new.clears ≡ self.old.clears) }
        ensures base { (items self.new.base.table ≡ self.old.now) × (self.new.created.base ≡ self.old.created.now) × (self.new.settled.numbers ≡ self.old.claimed) × (self.new.cleared.all ≡ self.old.clears) }
    {
        self.live.commit();
        self.claims.commit();
        self.clears.commit();
    }
}

//! When a pool with these parts refuses a step. Refusals are tested before all else, and take no memory.
#![tactic(auto, unfolding(crate::specs::Now::queries))]

ghost use Rattle.std.specs.Prelude.{◌≡◌, ℕ, Some, nat_lt, true, if◌then◌else◌, List};
ghost use Rattle.mdb_pool.specs.Kept.Body.{now_of};

use crate::kept::body::Body;
use crate::pool_core::PoolCore;
use crate::{Act, Established, FailedAt, Refused, Step, What};
use mdb_base::{Moment, ObjectId, ServerAddress};

impl Body {
    ghost use Rattle.mdb_pool_rules.specs.Refusal.{first_row, wrong_service};
    ghost use Rattle.mdb_pool.specs.Refusing.{can_tell, is_here, is_pending_here, is_pinned_here, rows_now, refusal_now, tells_new};
    ghost use Rattle.mdb_log.specs.Acts.{IsPoolAct};
    ghost use Rattle.mdb_base.specs.declared.error.Error.{Error};
    ghost use Rattle.mdb_log.specs.declared.step.Use.{Use};
    ghost use Rattle.mdb_log.specs.declared.reply.Refused.TheVariants.{TimeBack};
    ghost use Rattle.mdb_log.specs.declared.step.Act.TheVariants.{Request, Collect, Established as EstablishedAct, Failed as FailedAct, Return, Pin, Replicate, Take, Maintain, Clear};

    // The pool is open, and this is its address.
    fn is_here(&self, address: &ServerAddress) -> bool
        ensures { result ≡ is_here (now_of self.now) address.now }
    {
        self.address.is(address) && !self.status.get().is_closed()
    }

    // The connection is one of this pool, and pending.
    fn is_pending_here(&self, pool: u32, id: u32) -> bool
        ensures { result ≡ is_pending_here (now_of self.now) pool id }
    {
        pool == self.pool && self.is_pending(id)
    }

    // The connection is one of this pool, and has a pin.
    fn is_pinned_here(&self, pool: u32, id: u32) -> bool
        ensures { result ≡ is_pinned_here (now_of self.now) pool id }
    {
        pool == self.pool && self.has_pin(id)
    }

    // A service goes with load balancing, and none with a normal pool.
    fn is_wrong_service(&self, service: Option<ObjectId>) -> bool
        ensures { result ≡ wrong_service self.now.options.load_balanced service }
    {
        if self.options.load_balanced {
            return service.is_none();
        }
        service.is_some()
    }

    pub(crate) fn request_refusal(&self, request: u32, address: &ServerAddress) -> Option<Refused>
        requires { can_tell (now_of self.now) request ≡ true }
        ensures { result ≡ first_row (rows_now (now_of self.now) (Request request address.now)) }
    {
        if !self.is_here(address) {
            return Some(Refused::UnknownServer);
        }
        if self.knows(request) {
            return Some(Refused::RequestKnown);
        }
        None
    }

    pub(crate) fn server_refusal(&self, address: &ServerAddress) -> Option<Refused>
        ensures { result ≡ first_row (rows_now (now_of self.now) (Maintain address.now)) }
    {
        if !self.is_here(address) {
            return Some(Refused::UnknownServer);
        }
        None
    }

    fn open_refusal(&self, request: u32) -> Option<Refused>
        ensures { result ≡ first_row (rows_now (now_of self.now) (Collect request)) }
    {
        if !self.is_open(request) {
            return Some(Refused::UnknownRequest);
        }
        None
    }

    fn established_refusal(&self, pool: u32, id: u32, made: Established) -> Option<Refused>
        ensures { result ≡ first_row (rows_now (now_of self.now) (EstablishedAct pool id made)) }
    {
        if !self.is_pending_here(pool, id) {
            return Some(Refused::NotPending);
        }
        if self.is_wrong_service(made.service_id) {
            return Some(Refused::WrongMode);
        }
        None
    }

    // A pool that is not load balanced is told of no service.
    fn failed_refusal(&self, pool: u32, id: u32, at: FailedAt) -> Option<Refused>
        ensures { (error : Error) → result ≡ first_row (rows_now (now_of self.now) (FailedAct pool id at error)) }
    {
        if !self.is_pending_here(pool, id) {
            return Some(Refused::NotPending);
        }
        if !self.options.load_balanced && at.service_id().is_some() {
            return Some(Refused::WrongMode);
        }
        None
    }

    fn holder_refusal(&self, party: u32) -> Option<Refused>
        ensures { (used : Use) → result ≡ first_row (rows_now (now_of self.now) (Return party used)) }
    {
        if !self.holds(party) {
            return Some(Refused::NotHolder);
        }
        None
    }

    fn pin_refusal(&self, party: u32) -> Option<Refused>
        ensures { result ≡ first_row (rows_now (now_of self.now) (Pin party)) }
    {
        let Some(connection) = self.held_connection(party) else {
            return Some(Refused::NotHolder);
        };
        if 0 < connection.pins {
            return Some(Refused::PinState);
        }
        None
    }

    fn pinned_refusal(&self, pool: u32, id: u32) -> Option<Refused>
        ensures { result ≡ first_row (rows_now (now_of self.now) (Replicate pool id)) }
    {
        if !self.is_pinned_here(pool, id) {
            return Some(Refused::Unpinned);
        }
        None
    }

    fn take_refusal(&self, party: u32, pool: u32, id: u32) -> Option<Refused>
        requires { can_tell (now_of self.now) party ≡ true }
        ensures { result ≡ first_row (rows_now (now_of self.now) (Take party pool id)) }
    {
        if self.knows(party) {
            return Some(Refused::RequestKnown);
        }
        if !self.is_pinned_here(pool, id) {
            return Some(Refused::Unpinned);
        }
        if self.is_held(id) {
            return Some(Refused::PinInUse);
        }
        None
    }

    fn clear_refusal(&self, service: Option<ObjectId>) -> Option<Refused>
        ensures { (pool : ℕ) (error : Error) → result ≡ first_row (rows_now (now_of self.now) (Clear pool service error)) }
    {
        if self.is_wrong_service(service) {
            return Some(Refused::WrongMode);
        }
        if self.is_exhausted(service) {
            return Some(Refused::Exhausted(What::Generation));
        }
        None
    }

    // The first row that holds of those of the act.
    fn row_refusal(&self, act: &Act) -> Option<Refused>
        requires { tells_new (now_of self.now) act.now ≡ true }
        ensures { result ≡ first_row (rows_now (now_of self.now) act.now) }
    {
        match act {
            Act::Request(request, address) => self.request_refusal(*request, address),
            Act::Warm(request, address) => self.request_refusal(*request, address),
            Act::Maintain(address) => self.server_refusal(address),
            Act::Expire(address) => self.server_refusal(address),
            Act::Collect(request) => self.open_refusal(*request),
            Act::GiveUp(request) => self.open_refusal(*request),
            Act::Established(pool, id, made) => self.established_refusal(*pool, *id, *made),
            Act::Failed(pool, id, at, _) => self.failed_refusal(*pool, *id, *at),
            Act::Return(party, _) => self.holder_refusal(*party),
            Act::Pin(party) => self.pin_refusal(*party),
            Act::Replicate(pool, id) => self.pinned_refusal(*pool, *id),
            Act::Take(party, pool, id) => self.take_refusal(*party, *pool, *id),
            Act::Unpin(pool, id) => self.pinned_refusal(*pool, *id),
            Act::Clear(_, service, _) => self.clear_refusal(*service),
            _ => None,
        }
    }

    // The refusal by the row, after the test that comes before any other: no step is earlier than the last.
    pub(crate) fn refusal_at(&self, moment: Moment, row: Option<Refused>) -> Option<Refused>
        ensures { result ≡ if nat_lt moment self.now.last.now then Some (TimeBack self.now.last.now) else row }
    {
        if moment < *self.last.get() {
            return Some(Refused::TimeBack(*self.last.get()));
        }
        row
    }

    // Why a request at the pool's own address is refused.
    pub(crate) fn asking_refusal(&self, moment: Moment, request: u32) -> Option<Refused>
        requires { can_tell (now_of self.now) request ≡ true }
        ensures { result ≡ if nat_lt moment self.now.last.now then Some (TimeBack self.now.last.now) else first_row (rows_now (now_of self.now) (Request request self.now.address)) }
    {
        self.refusal_at(moment, self.request_refusal(request, &self.address))
    }

    // Why the failure of a connection of this pool is refused.
    pub(crate) fn failing_refusal(&self, moment: Moment, id: u32, at: FailedAt) -> Option<Refused>
        ensures { (error : Error) → result ≡ if nat_lt moment self.now.last.now then Some (TimeBack self.now.last.now) else first_row (rows_now (now_of self.now) (FailedAct self.now.pool id at error)) }
    {
        self.refusal_at(moment, self.failed_refusal(self.pool, id, at))
    }

    // Why a clear of this pool is refused.
    pub(crate) fn clearing_refusal(
        &self,
        moment: Moment,
        service: Option<ObjectId>,
    ) -> Option<Refused>
        ensures { (pool : ℕ) (error : Error) → result ≡ if nat_lt moment self.now.last.now then Some (TimeBack self.now.last.now) else first_row (rows_now (now_of self.now) (Clear pool service error)) }
    {
        self.refusal_at(moment, self.clear_refusal(service))
    }

    // Why a step that names the pool's own address alone is refused.
    pub(crate) fn home_refusal(&self, moment: Moment) -> Option<Refused>
        ensures { result ≡ if nat_lt moment self.now.last.now then Some (TimeBack self.now.last.now) else first_row (rows_now (now_of self.now) (Maintain self.now.address)) }
    {
        self.refusal_at(moment, self.server_refusal(&self.address))
    }

    // Why the pool refuses the step, `None` where it accepts it.
    pub(crate) fn refusal_now(&self, step: &Step) -> Option<Refused>
        requires act { IsPoolAct self.now.pool step.now.act }
        requires new { tells_new (now_of self.now) step.now.act ≡ true }
        ensures { result ≡ refusal_now (now_of self.now) step.now }
    {
        self.refusal_at(step.moment, self.row_refusal(&step.act))
    }
}

impl PoolCore {
    ghost use Rattle.mdb_log.specs.Acts.{IsPoolAct};
    ghost use Rattle.mdb_log.specs.History.{Item};
    ghost use Rattle.mdb_pool_rules.specs.Refusal.{refusal_of};
    ghost use Rattle.mdb_pool.specs.Refusing.{refusal_now, tells_new};
    ghost use Rattle.mdb_pool.specs.Standing.{StandsFor};

    // Why the pool refuses the step, by what it keeps.
    pub(crate) fn refuses(&self, step: &Step) -> Option<Refused>
        requires act { IsPoolAct self.now.pool step.now.act }
        requires new { tells_new self.now step.now.act ≡ true }
        ensures { result ≡ refusal_now self.now step.now }
    {
        self.draft.body.refusal_now(step)
    }

    /// Why the pool refuses the step, `None` where it accepts it. It only looks, and takes no memory. A pool of a driver is asked only for parties that are new to it.
    pub fn refusal_now(&self, step: &Step) -> Option<Refused>
        requires act { IsPoolAct self.now.pool step.now.act }
        requires new { tells_new self.now step.now.act ≡ true }
        ensures history { (h : List Item) → StandsFor self.now h → result ≡ refusal_of self.now.pool self.now.options h step.now }
        ensures now { result ≡ refusal_now self.now step.now }
    {
        self.refuses(step)
    }
}

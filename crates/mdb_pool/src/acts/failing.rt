//! A pending connection of a pool failed.

ghost use Rattle.std.specs.Prelude.{◌≡◌, ◌++◌, ◌∷◌, ◌-◌, [], OnOk, OnErr, IfOk, List, true, false};
ghost use Rattle.mdb_pool_rules.specs.Facts.{failure_of};

use crate::kept::connection::Connection;
use crate::kept::draft::Draft;
use crate::kept::request::{Phase, Request};
use crate::pool_core::PoolCore;
use crate::{Act, FailedAt, Reply, Step};
use mdb_base::{Error, Moment, OutOfMemory};
use mdb_events::{
    Boxed, CmapEvent, ConnectionCheckoutFailedEvent, ConnectionCheckoutFailedReason,
    ConnectionClosedReason, End, Fact,
};
use std::alloc::Global;

// Why the checkout of a caller failed that ended so.
fn failure_of(end: &End) -> ConnectionCheckoutFailedReason
    ensures { result ≡ failure_of end.now }
{
    match end {
        End::TimedOut => ConnectionCheckoutFailedReason::Timeout,
        _ => ConnectionCheckoutFailedReason::ConnectionError,
    }
}

impl Draft {
    ghost use Rattle.mdb_pool.specs.Kept.Values.{is_gone, request_at, connection_at, is_pending_at};
    ghost use Rattle.mdb_log.specs.History.{service_in};
    ghost use Rattle.mdb_pool.specs.Acts.Changes.{failing, forgetting, over_facts};
    ghost use Rattle.mdb_pool.specs.Standing.{SameHome, Fits, Accepts, StandsFor, Answers};
    ghost use Rattle.mdb_log.specs.History.{Item, PoolItem, failed};
    ghost use Rattle.mdb_log.specs.declared.step.Act.TheVariants.{Failed as FailedAct};
    ghost use Rattle.mdb_events.specs.declared.end.End.TheVariants.{Failed as FailedEnd};
    ghost use Rattle.mdb_events.specs.declared.reasons.ConnectionClosedReason.TheVariants.{Error as ErrorReason};
    ghost use Rattle.mdb_pool_rules.specs.Facts.{closed_fact};

    // A request ends without a connection; of a caller, its checkout fails.
    pub(crate) fn push_end(
        &self,
        facts: &mut Vec<Fact>,
        request: u32,
        warm: bool,
        waited: Moment,
        end: End,
    ) -> Result<(), OutOfMemory>
        ensures { OnOk result (facts.new.items ≡ facts.old.items ++ over_facts self.now request warm waited end) }
    {
        let address = self.address().clone()?;
        let reason = failure_of(&end);
        facts.push(Fact::Ended(request, end))?;
        if warm {
            return Ok(());
        }
        facts.push(Fact::Pool(
            self.number(),
            CmapEvent::ConnectionCheckoutFailed(ConnectionCheckoutFailedEvent {
                address,
                reason,
                duration: waited,
            }),
        ))?;
        Ok(())
    }

    // The connection is closed, and its request ends.
    fn fail(
        &mut self,
        alloc: Global,
        facts: &mut Vec<Fact>,
        moment: Moment,
        connection: Connection,
        request: Request,
        cause: &Error,
    ) -> Result<(), OutOfMemory>
        requires there { is_gone self.old.kept.settled (request_at self.old request.number) ≡ false }
        ensures core { OnOk result (self.new ≡ failing self.old moment connection request (FailedEnd cause.now)) }
        ensures facts { OnOk result (facts.new.items ≡ facts.old.items ++ closed_fact self.old.pool self.old.address connection.id ErrorReason connection.service ∷ over_facts self.old request.number request.warm (moment - request.asked_at) (FailedEnd cause.now)) }
        ensures inner { self.new.kept.inner ≡ self.old.kept.inner }
    {
        let (number, warm) = (request.number, request.warm);
        let waited = moment.saturating_sub(request.asked_at);
        let kept = Boxed::copy_of(alloc, cause)?;
        self.enter_phase(alloc, request, Phase::Ended(End::Failed(kept)))?;
        self.push_close(facts, connection, ConnectionClosedReason::Error)?;
        let told = Boxed::copy_of(alloc, cause)?;
        self.push_end(facts, number, warm, waited, End::Failed(told))?;
        self.set_last(moment);
        self.remove_connection(alloc, connection.id)?;
        Ok(())
    }

    // The connection, whose caller gave up or which has none, is closed.
    fn forget(
        &mut self,
        alloc: Global,
        facts: &mut Vec<Fact>,
        moment: Moment,
        connection: Connection,
    ) -> Result<(), OutOfMemory>
        ensures core { OnOk result (self.new ≡ forgetting self.old moment connection) }
        ensures facts { OnOk result (facts.new.items ≡ facts.old.items ++ closed_fact self.old.pool self.old.address connection.id ErrorReason connection.service ∷ []) }
        ensures inner { self.new.kept.inner ≡ self.old.kept.inner }
    {
        self.push_close(facts, connection, ConnectionClosedReason::Error)?;
        self.set_last(moment);
        self.remove_connection(alloc, connection.id)?;
        Ok(())
    }

    // A pending connection failed, at any point. Whoever calls has tested the refusals.
    #[tactic(auto, unfolding(crate::specs::Now::queries))]
    pub(crate) fn accept_failed(
        &mut self,
        alloc: Global,
        facts: &mut Vec<Fact>,
        moment: Moment,
        id: u32,
        at: FailedAt,
        cause: &Error,
    ) -> Result<Reply, OutOfMemory>
        requires { is_pending_at (connection_at self.old id) ≡ true }
        ensures home { OnOk result (SameHome self.old self.new) }
        ensures last { OnOk result (self.new.kept.last ≡ moment) }
        ensures accepts { IfOk result (λ reply. (xs : List PoolItem) → Fits self.old xs → Accepts self.old self.new facts.old.items facts.new.items moment (FailedAct self.old.pool id at cause.now) reply xs (failed id (service_in at) ∷ xs)) }
        ensures inner { self.new.kept.inner ≡ self.old.kept.inner }
    {
        let Some(connection) = self.connection(id).copied() else {
            unreachable!()
        };
        if let Some(request) = self.holder_request(connection) {
            let request = request.copy()?;
            self.fail(alloc, facts, moment, connection, request, cause)?;
            self.serve(alloc, facts, moment)?;
            return Ok(Reply::Done);
        }
        self.forget(alloc, facts, moment, connection)?;
        self.serve(alloc, facts, moment)?;
        Ok(Reply::Done)
    }
}

impl PoolCore {
    ghost use Rattle.mdb_pool.specs.Kept.Values.{connection_at, is_pending_at};
    ghost use Rattle.mdb_log.specs.History.{service_in};
    ghost use Rattle.mdb_pool.specs.Acts.Changes.{failing, forgetting, over_facts};
    ghost use Rattle.mdb_pool.specs.Standing.{SameHome, Fits, Accepts, StandsFor, Answers};
    ghost use Rattle.mdb_pool.specs.Planning.{Passes};
    ghost use Rattle.mdb_log.specs.History.{Item, PoolItem, failed};
    ghost use Rattle.mdb_log.specs.declared.step.Act.TheVariants.{Failed as FailedAct};
    ghost use Rattle.mdb_events.specs.declared.end.End.TheVariants.{Failed as FailedEnd};
    ghost use Rattle.mdb_events.specs.declared.reasons.ConnectionClosedReason.TheVariants.{Error as ErrorReason};
    ghost use Rattle.mdb_pool_rules.specs.Facts.{closed_fact};

    /// A pending connection failed: it is closed, and its caller's request ends (CMAP, "Checking Out a Connection"). Refused as `TimeBack`,
    /// `NotPending`, or `WrongMode` where a normal pool is given a service.
    pub fn failed(
        &mut self,
        alloc: Global,
        facts: &mut Vec<Fact>,
        moment: Moment,
        id: u32,
        at: FailedAt,
        error: Error,
    ) -> Result<Reply, OutOfMemory>
        ensures home { OnOk result (SameHome self.old self.new) }
        ensures answers { IfOk result (λ reply. (h : List Item) → StandsFor self.old h → Answers self.old self.new facts.old.items facts.new.items (record { moment = moment; act = FailedAct self.old.pool id at error }) reply h) }
        ensures err_core { OnErr result (self.new ≡ self.old) }
        ensures err_facts { OnErr result (facts.new.items ≡ facts.old.items) }
        ensures passes { OnErr result (Passes self.old (record { moment = moment; act = FailedAct self.old.pool id at error })) }
    {
        if let Some(why) = self.draft.body.failing_refusal(moment, id, at) {
            return Ok(Reply::Refused(why));
        }
        let error = Boxed::new(alloc, error)?;
        let step = Step {
            moment,
            act: Act::Failed(self.draft.body.pool, id, at, error),
        };
        let answer = self.attempt(alloc, facts, &step);
        drop(step);
        answer
    }
}

//! The single changes of a pool, each with its facts.

ghost use Rattle.mdb_pool_rules.specs.Facts.{new_pool_error, checked_out_fact, closed_fact, created_fact, started_fact, ready_fact};
ghost use Rattle.std.specs.Prelude.{false, ◌≡◌, ◌++◌, ◌∷◌, ◌+◌, ◌-◌, ◌<◌, [], OnOk, IfOk, is_some, true, None};
ghost use Rattle.mdb_pool.specs.Kept.Values.{with_connections, with_requests};

use crate::kept::connection::{Connection, Place};
use crate::kept::draft::Draft;
use crate::kept::request::{Phase, Request};
use crate::kept::status::Status;
use crate::{Established, Reply};
use mdb_base::{Error, ErrorKind, Items, Moment, OutOfMemory, Text};
use mdb_events::{
    Boxed, CmapEvent, ConnectionCheckedOutEvent, ConnectionCheckoutStartedEvent,
    ConnectionClosedReason, ConnectionCreatedEvent, ConnectionReadyEvent, End, Fact,
};
use std::alloc::{AllocError, Global};

// The error of a request to a pool that was never ready.
pub(crate) fn new_pool_error(alloc: Global) -> Result<Error, AllocError>
    ensures { IfOk result (λ error. error ≡ new_pool_error) }
{
    let message = String::from_str(alloc, "check out attempted from new pool")?;
    Ok(Error {
        kind: ErrorKind::Other,
        labels: Items::new(Vec::new(alloc)),
        topology_version: None,
        message: Text::new(message),
    })
}

impl Draft {
    ghost use Rattle.mdb_log.specs.Connections.{has};
    ghost use Rattle.mdb_slots.specs.Keyed.{swap};
    ghost use Rattle.mdb_pool.specs.Kept.Places.{is_queued};
    ghost use Rattle.mdb_pool.specs.Kept.Values.{is_gone, request_at, connection_at, outcome_now};
    ghost use Rattle.mdb_pool.specs.Acts.Changes.{asking, away, away_end, away_facts, discarding, creating, spawning, ending, granting, establishing, telling, handed};
    ghost use Rattle.mdb_events.specs.declared.fact.Fact.TheVariants.{Pool, Granted, Ended};
    ghost use Rattle.mdb_events.specs.declared.cmap.CmapEvent.TheVariants.{ConnectionCreated, ConnectionCheckedOut};

    // The request is at this phase, which is not that of the queue.
    pub(crate) fn enter_phase(
        &mut self,
        alloc: Global,
        request: Request,
        phase: Phase,
    ) -> Result<(), OutOfMemory>
        requires there { is_gone self.old.kept.settled (request_at self.old request.number) ≡ false }
        requires unqueued { is_queued phase ≡ false }
        ensures core { OnOk result (self.new ≡ with_requests self.old (swap (λ q. q.number) (record request { phase = phase }) self.old.kept.requests)) }
        ensures inner { self.new.kept.inner ≡ self.old.kept.inner }
    {
        let Request {
            number,
            asked_at,
            warm,
            took,
            phase: before,
        } = request;
        drop(before);
        self.replace_request(
            alloc,
            Request {
                number,
                asked_at,
                warm,
                took,
                phase,
            },
        )
    }

    // A new request comes last.
    pub(crate) fn enqueue(
        &mut self,
        alloc: Global,
        moment: Moment,
        request: u32,
        warm: bool,
    ) -> Result<(), OutOfMemory>
        requires { request_at self.old request ≡ None }
        ensures core { OnOk result (self.new ≡ asking self.old request moment warm) }
        ensures unsettled { OnOk result (has request self.new.kept.settled ≡ false) }
        ensures inner { self.new.kept.inner ≡ self.old.kept.inner }
    {
        self.set_last(moment);
        self.put_request(
            alloc,
            Request {
                number: request,
                asked_at: moment,
                warm,
                took: false,
                phase: Phase::Queued,
            },
        )?;
        Ok(())
    }

    // A caller's request has begun.
    pub(crate) fn push_started(&self, facts: &mut Vec<Fact>) -> Result<(), OutOfMemory>
        ensures { OnOk result (facts.new.items ≡ facts.old.items ++ started_fact self.now.pool self.now.address ∷ []) }
    {
        let address = self.address().clone()?;
        facts.push(Fact::Pool(
            self.number(),
            CmapEvent::ConnectionCheckoutStarted(ConnectionCheckoutStartedEvent { address }),
        ))?;
        Ok(())
    }

    // A new caller comes last.
    pub(crate) fn ask(
        &mut self,
        alloc: Global,
        facts: &mut Vec<Fact>,
        moment: Moment,
        request: u32,
    ) -> Result<(), OutOfMemory>
        requires { request_at self.old request ≡ None }
        ensures core { OnOk result (self.new ≡ asking self.old request moment false) }
        ensures facts { OnOk result (facts.new.items ≡ facts.old.items ++ started_fact self.old.pool self.old.address ∷ []) }
        ensures unsettled { OnOk result (has request self.new.kept.settled ≡ false) }
        ensures inner { self.new.kept.inner ≡ self.old.kept.inner }
    {
        self.enqueue(alloc, moment, request, false)?;
        self.push_started(facts)?;
        Ok(())
    }

    // How a request ends at once where the pool isn't ready.
    fn away_end(&self, alloc: Global) -> Result<Option<End>, OutOfMemory>
        ensures { IfOk result (λ end. end ≡ away_end self.now.kept.status) }
    {
        match self.status() {
            Status::New => {
                let error = new_pool_error(alloc)?;
                Ok(Some(End::Cleared(Boxed::new(alloc, error)?)))
            }
            Status::Paused(cause) => { Ok(Some(End::Cleared(Boxed::copy_of(alloc, cause)?))) }
            _ => Ok(None),
        }
    }

    // A new request ends at once where the pool isn't ready.
    pub(crate) fn turn_away(
        &mut self,
        alloc: Global,
        facts: &mut Vec<Fact>,
        moment: Moment,
        request: u32,
        warm: bool,
    ) -> Result<(), OutOfMemory>
        requires { has request self.old.kept.settled ≡ false }
        ensures core { OnOk result (self.new ≡ away self.old request moment warm (away_end self.old.kept.status)) }
        ensures facts { OnOk result (facts.new.items ≡ facts.old.items ++ away_facts self.old request warm (away_end self.old.kept.status)) }
        ensures inner { self.new.kept.inner ≡ self.old.kept.inner }
    {
        let Some(end) = self.away_end(alloc)? else {
            return Ok(());
        };
        let told = end.clone()?;
        self.push_end(facts, request, warm, 0, told)?;
        self.replace_request(
            alloc,
            Request {
                number: request,
                asked_at: moment,
                warm,
                took: false,
                phase: Phase::Ended(end),
            },
        )?;
        Ok(())
    }

    fn push_created(&self, facts: &mut Vec<Fact>, id: u32) -> Result<(), OutOfMemory>
        ensures { OnOk result (facts.new.items ≡ facts.old.items ++ created_fact self.now.pool self.now.address id ∷ []) }
    {
        let address = self.address().clone()?;
        facts.push(Fact::Pool(
            self.number(),
            CmapEvent::ConnectionCreated(ConnectionCreatedEvent {
                address,
                connection_id: id,
            }),
        ))?;
        Ok(())
    }

    fn push_checked_out(
        &self,
        facts: &mut Vec<Fact>,
        id: u32,
        waited: Moment,
    ) -> Result<(), OutOfMemory>
        ensures { OnOk result (facts.new.items ≡ facts.old.items ++ checked_out_fact self.now.pool self.now.address id waited ∷ []) }
    {
        let address = self.address().clone()?;
        facts.push(Fact::Pool(
            self.number(),
            CmapEvent::ConnectionCheckedOut(ConnectionCheckedOutEvent {
                address,
                connection_id: id,
                duration: waited,
            }),
        ))?;
        Ok(())
    }

    // An established connection is told of.
    pub(crate) fn push_ready(
        &self,
        facts: &mut Vec<Fact>,
        moment: Moment,
        connection: Connection,
    ) -> Result<(), OutOfMemory>
        ensures { OnOk result (facts.new.items ≡ facts.old.items ++ ready_fact self.now.pool self.now.address connection.id (moment - connection.created_at) ∷ []) }
    {
        let address = self.address().clone()?;
        facts.push(Fact::Pool(
            self.number(),
            CmapEvent::ConnectionReady(ConnectionReadyEvent {
                address,
                connection_id: connection.id,
                duration: moment.saturating_sub(connection.created_at),
            }),
        ))?;
        Ok(())
    }

    // The request gets a new connection.
    pub(crate) fn create(
        &mut self,
        alloc: Global,
        facts: &mut Vec<Fact>,
        moment: Moment,
        request: Request,
    ) -> Result<(), OutOfMemory>
        requires there { is_gone self.old.kept.settled (request_at self.old request.number) ≡ false }
        requires live { self.old.kept.created < self.old.options.limit_id }
        ensures core { OnOk result (self.new ≡ creating self.old moment request) }
        ensures facts { OnOk result (facts.new.items ≡ facts.old.items ++ Pool self.old.pool (ConnectionCreated (record { address = self.old.address; connection_id = self.old.kept.created + 1 })) ∷ Granted request.number self.old.pool (self.old.kept.created + 1) ∷ []) }
        ensures inner { self.new.kept.inner ≡ self.old.kept.inner }
    {
        // The id is at most the limit, which bounds it.
        let _limit = self.options().limit_id;
        let timeouts = self.timeouts();
        let id = self.created() + 1;
        let number = request.number;
        self.enter_phase(alloc, request, Phase::Given(id))?;
        self.create_connection(
            alloc,
            Connection::pending(id, moment, Some(number), timeouts),
        )?;
        self.push_created(facts, id)?;
        facts.push(Fact::Granted(number, self.number(), id))?;
        Ok(())
    }

    // A connection is created in the background.
    pub(crate) fn spawn(
        &mut self,
        alloc: Global,
        facts: &mut Vec<Fact>,
        moment: Moment,
    ) -> Result<(), OutOfMemory>
        requires { self.old.kept.created < self.old.options.limit_id }
        ensures core { OnOk result (self.new ≡ spawning self.old moment) }
        ensures facts { OnOk result (facts.new.items ≡ facts.old.items ++ created_fact self.old.pool self.old.address (self.old.kept.created + 1) ∷ []) }
        ensures inner { self.new.kept.inner ≡ self.old.kept.inner }
    {
        // The id is at most the limit, which bounds it.
        let _limit = self.options().limit_id;
        let id = self.created() + 1;
        self.create_connection(alloc, Connection::pending(id, moment, None, 0))?;
        self.push_created(facts, id)?;
        Ok(())
    }

    // A warm request ends.
    pub(crate) fn end_warm(
        &mut self,
        alloc: Global,
        facts: &mut Vec<Fact>,
        request: Request,
        end: &End,
    ) -> Result<(), OutOfMemory>
        requires there { is_gone self.old.kept.settled (request_at self.old request.number) ≡ false }
        ensures core { OnOk result (self.new ≡ ending self.old request end.now) }
        ensures facts { OnOk result (facts.new.items ≡ facts.old.items ++ Ended request.number end.now ∷ []) }
        ensures inner { self.new.kept.inner ≡ self.old.kept.inner }
    {
        let number = request.number;
        let kept = end.clone()?;
        self.enter_phase(alloc, request, Phase::Ended(kept))?;
        let told = end.clone()?;
        facts.push(Fact::Ended(number, told))?;
        Ok(())
    }

    // The request's caller has an available connection.
    #[tactic(auto, using(crate::proofs::Listed::Beside::stays_out))]
    pub(crate) fn hand(
        &mut self,
        alloc: Global,
        facts: &mut Vec<Fact>,
        connection: Connection,
        number: u32,
        waited: Moment,
    ) -> Result<(), OutOfMemory>
        ensures core { OnOk result (self.new ≡ with_connections self.old (swap (λ x. x.id) (handed self.old connection number) self.old.kept.connections)) }
        ensures facts { OnOk result (facts.new.items ≡ facts.old.items ++ Granted number self.old.pool connection.id ∷ checked_out_fact self.old.pool self.old.address connection.id waited ∷ []) }
        ensures inner { self.new.kept.inner ≡ self.old.kept.inner }
    {
        let timeouts = self.timeouts();
        self.replace_connection(
            alloc,
            Connection {
                place: Place::Held,
                party: Some(number),
                holder: Some(number),
                timeouts,
                ..connection
            },
        )?;
        facts.push(Fact::Granted(number, self.number(), connection.id))?;
        self.push_checked_out(facts, connection.id, waited)?;
        Ok(())
    }

    // The request gets an available connection.
    pub(crate) fn grant(
        &mut self,
        alloc: Global,
        facts: &mut Vec<Fact>,
        moment: Moment,
        connection: Connection,
        request: Request,
    ) -> Result<(), OutOfMemory>
        requires there { is_gone self.old.kept.settled (request_at self.old request.number) ≡ false }
        ensures core { OnOk result (self.new ≡ granting self.old connection request) }
        ensures facts { OnOk result (facts.new.items ≡ facts.old.items ++ Granted request.number self.old.pool connection.id ∷ Pool self.old.pool (ConnectionCheckedOut (record { address = self.old.address; connection_id = connection.id; duration = moment - request.asked_at })) ∷ []) }
        ensures inner { self.new.kept.inner ≡ self.old.kept.inner }
    {
        let number = request.number;
        let waited = moment.saturating_sub(request.asked_at);
        self.enter_phase(alloc, request, Phase::Given(connection.id))?;
        self.hand(alloc, facts, connection, number, waited)
    }

    // An available connection that has perished is closed.
    pub(crate) fn discard(
        &mut self,
        alloc: Global,
        facts: &mut Vec<Fact>,
        connection: Connection,
        reason: ConnectionClosedReason,
    ) -> Result<(), OutOfMemory>
        ensures core { OnOk result (self.new ≡ discarding self.old connection) }
        ensures facts { OnOk result (facts.new.items ≡ facts.old.items ++ closed_fact self.old.pool self.old.address connection.id reason connection.service ∷ []) }
        ensures inner { self.new.kept.inner ≡ self.old.kept.inner }
    {
        self.push_close(facts, connection, reason)?;
        self.remove_connection(alloc, connection.id)?;
        Ok(())
    }

    // A pending connection is handed to the caller who asked at that moment.
    pub(crate) fn establish(
        &mut self,
        alloc: Global,
        facts: &mut Vec<Fact>,
        moment: Moment,
        connection: Connection,
        made: Established,
        asked_at: Moment,
    ) -> Result<(), OutOfMemory>
        requires lives { is_some (connection_at self.old connection.id) ≡ true }
        ensures core { OnOk result (self.new ≡ establishing self.old moment connection made) }
        ensures facts { OnOk result (facts.new.items ≡ facts.old.items ++ ready_fact self.old.pool self.old.address connection.id (moment - connection.created_at) ∷ checked_out_fact self.old.pool self.old.address connection.id (moment - asked_at) ∷ []) }
        ensures inner { self.new.kept.inner ≡ self.old.kept.inner }
    {
        self.set_last(moment);
        self.put_connection(
            alloc,
            Connection {
                place: Place::Held,
                service: made.service_id,
                wire: Some(made.wire),
                ..connection
            },
        )?;
        self.push_ready(facts, moment, connection)?;
        let waited = moment.saturating_sub(asked_at);
        self.push_checked_out(facts, connection.id, waited)?;
        Ok(())
    }

    // Tells how the request stands. Whoever has a connection or has ended is told once.
    pub(crate) fn tell(&mut self, alloc: Global, request: u32) -> Result<Reply, OutOfMemory>
        requires { has request self.old.kept.settled ≡ false }
        ensures core { OnOk result (self.new ≡ telling self.old request) }
        ensures reply { IfOk result (λ reply. reply ≡ outcome_now self.old request) }
        ensures inner { self.new.kept.inner ≡ self.old.kept.inner }
    {
        let reply = self.body.outcome(request)?;
        if matches!(reply, Reply::Pooled(_, _) | Reply::Ended(_)) {
            self.settle(alloc, request)?;
        }
        Ok(reply)
    }
}

//! The changes of a pool by which connections come back and requests are given up.

ghost use Rattle.std.specs.Prelude.{◌≡◌, ◌++◌, ◌∷◌, ◌-◌, [], false, OnOk, Some, is_some, true};
ghost use Rattle.mdb_pool.specs.Kept.Values.{with_connections};

use crate::kept::connection::{Connection, Place};
use crate::kept::draft::Draft;
use crate::kept::request::{Phase, Request};
use crate::{Established, Use};
use mdb_base::{Moment, OutOfMemory};
use mdb_events::{
    CmapEvent, ConnectionCheckedInEvent, ConnectionClosedEvent, ConnectionClosedReason, End, Fact,
};
use std::alloc::Global;

// The connection with what was found out when it was established.
pub(crate) fn as_made(connection: Connection, made: Established) -> Connection
    ensures { result ≡ record connection { service = made.service_id; wire = Some made.wire } }
{
    Connection {
        service: made.service_id,
        wire: Some(made.wire),
        ..connection
    }
}

/// A connection that comes back, and why it is closed: `None` where it is available from then on.
#[derive(Clone, Copy)]
pub(crate) struct CheckIn {
    pub connection: Connection,
    pub reason: Option<ConnectionClosedReason>,
}

impl Draft {
    ghost use Rattle.mdb_pool.specs.Kept.Places.{is_queued};
    ghost use Rattle.mdb_pool.specs.Kept.Values.{is_gone, request_at, connection_at};
    ghost use Rattle.mdb_pool.specs.Acts.Changes.{returning_for, pooling, pooling_for, filling_for, quitting, leaving, handing_for, to_pin, back_facts, placed, finishing};
    ghost use Rattle.mdb_pool.specs.declared.kept.request.Phase.TheVariants.{Ended as EndedPhase};
    ghost use Rattle.mdb_events.specs.declared.fact.Fact.TheVariants.{Ended};
    ghost use Rattle.mdb_events.specs.declared.end.End.TheVariants.{GaveUp, Filled};
    ghost use Rattle.mdb_pool_rules.specs.Facts.{checked_in_fact, closed_fact, ready_fact};

    fn push_check_in(&self, facts: &mut Vec<Fact>, id: u32) -> Result<(), OutOfMemory>
        ensures { OnOk result (facts.new.items ≡ facts.old.items ++ checked_in_fact self.now.pool self.now.address id ∷ []) }
    {
        let address = self.address().clone()?;
        facts.push(Fact::Pool(
            self.number(),
            CmapEvent::ConnectionCheckedIn(ConnectionCheckedInEvent {
                address,
                connection_id: id,
            }),
        ))?;
        Ok(())
    }

    pub(crate) fn push_close(
        &self,
        facts: &mut Vec<Fact>,
        connection: Connection,
        reason: ConnectionClosedReason,
    ) -> Result<(), OutOfMemory>
        ensures { OnOk result (facts.new.items ≡ facts.old.items ++ closed_fact self.now.pool self.now.address connection.id reason connection.service ∷ []) }
    {
        let address = self.address().clone()?;
        facts.push(Fact::Pool(
            self.number(),
            CmapEvent::ConnectionClosed(ConnectionClosedEvent {
                address,
                connection_id: connection.id,
                reason,
                service_id: connection.service,
            }),
        ))?;
        Ok(())
    }

    // What a check-in says. On a closed pool there is the close alone.
    pub(crate) fn push_back(
        &self,
        facts: &mut Vec<Fact>,
        connection: Connection,
        reason: Option<ConnectionClosedReason>,
    ) -> Result<(), OutOfMemory>
        ensures { OnOk result (facts.new.items ≡ facts.old.items ++ back_facts self.now connection reason) }
    {
        let Some(reason) = reason else {
            self.push_check_in(facts, connection.id)?;
            return Ok(());
        };
        if self.status().is_closed() {
            self.push_close(facts, connection, reason)?;
            return Ok(());
        }
        self.push_check_in(facts, connection.id)?;
        self.push_close(facts, connection, reason)?;
        Ok(())
    }

    // The connection is closed where there is a reason, and else available.
    pub(crate) fn place_back(
        &mut self,
        alloc: Global,
        moment: Moment,
        connection: Connection,
        reason: Option<ConnectionClosedReason>,
    ) -> Result<(), OutOfMemory>
        requires lives { is_some (connection_at self.old connection.id) ≡ true }
        ensures core { OnOk result (self.new ≡ with_connections self.old (placed moment connection reason self.old.kept.connections)) }
        ensures inner { self.new.kept.inner ≡ self.old.kept.inner }
    {
        if reason.is_some() {
            self.remove_connection(alloc, connection.id)?;
            return Ok(());
        }
        self.put_connection(
            alloc,
            Connection {
                place: Place::Available,
                holder: None,
                since: moment,
                ..connection
            },
        )?;
        Ok(())
    }

    // An established connection whose caller gave up goes into the pool, or is closed.
    pub(crate) fn pool_connection(
        &mut self,
        alloc: Global,
        facts: &mut Vec<Fact>,
        moment: Moment,
        back: CheckIn,
        made: Established,
    ) -> Result<(), OutOfMemory>
        requires lives { is_some (connection_at self.old back.connection.id) ≡ true }
        ensures core { OnOk result (self.new ≡ pooling_for self.old moment back.connection made back.reason) }
        ensures facts { OnOk result (facts.new.items ≡ facts.old.items ++ ready_fact self.old.pool self.old.address back.connection.id (moment - back.connection.created_at) ∷ back_facts self.old (record back.connection { service = made.service_id; wire = Some made.wire }) back.reason) }
        ensures inner { self.new.kept.inner ≡ self.old.kept.inner }
    {
        let connection = as_made(back.connection, made);
        self.push_ready(facts, moment, connection)?;
        self.push_back(facts, connection, back.reason)?;
        self.set_last(moment);
        self.place_back(alloc, moment, connection, back.reason)?;
        Ok(())
    }

    // An established connection that was created in the background is available.
    pub(crate) fn rest(
        &mut self,
        alloc: Global,
        facts: &mut Vec<Fact>,
        moment: Moment,
        connection: Connection,
        made: Established,
    ) -> Result<(), OutOfMemory>
        requires lives { is_some (connection_at self.old connection.id) ≡ true }
        ensures core { OnOk result (self.new ≡ pooling self.old moment connection made) }
        ensures facts { OnOk result (facts.new.items ≡ facts.old.items ++ ready_fact self.old.pool self.old.address connection.id (moment - connection.created_at) ∷ []) }
        ensures inner { self.new.kept.inner ≡ self.old.kept.inner }
    {
        self.push_ready(facts, moment, connection)?;
        self.set_last(moment);
        let connection = as_made(connection, made);
        self.place_back(alloc, moment, connection, None)?;
        Ok(())
    }

    // An established connection of a warm request goes into the pool, or is closed, and the request ends.
    pub(crate) fn fill_in(
        &mut self,
        alloc: Global,
        facts: &mut Vec<Fact>,
        moment: Moment,
        back: CheckIn,
        made: Established,
        request: Request,
    ) -> Result<(), OutOfMemory>
        requires there { is_gone self.old.kept.settled (request_at self.old request.number) ≡ false }
        requires lives { is_some (connection_at self.old back.connection.id) ≡ true }
        ensures core { OnOk result (self.new ≡ filling_for self.old moment back.connection made request back.reason) }
        ensures facts { OnOk result (facts.new.items ≡ facts.old.items ++ (ready_fact self.old.pool self.old.address back.connection.id (moment - back.connection.created_at) ∷ back_facts self.old (record back.connection { service = made.service_id; wire = Some made.wire }) back.reason) ++ Ended request.number Filled ∷ []) }
        ensures inner { self.new.kept.inner ≡ self.old.kept.inner }
    {
        self.pool_connection(alloc, facts, moment, back, made)?;
        self.end_warm(alloc, facts, request, &End::Filled)
    }

    // The request is over, and no longer open.
    fn finish(
        &mut self,
        alloc: Global,
        moment: Moment,
        request: Request,
        phase: Phase,
    ) -> Result<(), OutOfMemory>
        requires came { is_some (request_at self.old request.number) ≡ true }
        requires there { is_gone self.old.kept.settled (request_at self.old request.number) ≡ false }
        requires unqueued { is_queued phase ≡ false }
        ensures core { OnOk result (self.new ≡ finishing self.old moment request phase) }
        ensures inner { self.new.kept.inner ≡ self.old.kept.inner }
    {
        let number = request.number;
        self.set_last(moment);
        self.enter_phase(alloc, request, phase)?;
        self.settle(alloc, number)?;
        Ok(())
    }

    // A held connection goes to its pin, and the request of its party is over.
    #[tactic(auto, using(crate::proofs::Listed::Beside::stays_out))]
    pub(crate) fn put_to_pin(
        &mut self,
        alloc: Global,
        moment: Moment,
        connection: Connection,
        request: Request,
        phase: Phase,
    ) -> Result<(), OutOfMemory>
        requires came { is_some (request_at self.old request.number) ≡ true }
        requires there { is_gone self.old.kept.settled (request_at self.old request.number) ≡ false }
        requires unqueued { is_queued phase ≡ false }
        ensures core { OnOk result (self.new ≡ to_pin self.old moment connection request phase) }
        ensures inner { self.new.kept.inner ≡ self.old.kept.inner }
    {
        self.finish(alloc, moment, request, phase)?;
        self.replace_connection(
            alloc,
            Connection {
                place: Place::Pinned,
                holder: None,
                ..connection
            },
        )?;
        Ok(())
    }

    // A request whose connection is pinned and held is given up.
    pub(crate) fn leave_to_pin(
        &mut self,
        alloc: Global,
        facts: &mut Vec<Fact>,
        moment: Moment,
        connection: Connection,
        request: Request,
    ) -> Result<(), OutOfMemory>
        requires came { is_some (request_at self.old request.number) ≡ true }
        requires there { is_gone self.old.kept.settled (request_at self.old request.number) ≡ false }
        ensures core { OnOk result (self.new ≡ to_pin self.old moment connection request (EndedPhase GaveUp)) }
        ensures facts { OnOk result (facts.new.items ≡ facts.old.items ++ Ended request.number GaveUp ∷ []) }
        ensures inner { self.new.kept.inner ≡ self.old.kept.inner }
    {
        facts.push(Fact::Ended(request.number, End::GaveUp))?;
        self.put_to_pin(
            alloc,
            moment,
            connection,
            request,
            Phase::Ended(End::GaveUp),
        )
    }

    // A held connection comes back, and is available or closed.
    pub(crate) fn give_back(
        &mut self,
        alloc: Global,
        facts: &mut Vec<Fact>,
        moment: Moment,
        back: CheckIn,
        request: Request,
    ) -> Result<(), OutOfMemory>
        requires came { is_some (request_at self.old request.number) ≡ true }
        requires there { is_gone self.old.kept.settled (request_at self.old request.number) ≡ false }
        requires lives { is_some (connection_at self.old back.connection.id) ≡ true }
        ensures core { OnOk result (self.new ≡ returning_for self.old moment back.connection request back.reason) }
        ensures facts { OnOk result (facts.new.items ≡ facts.old.items ++ back_facts self.old back.connection back.reason) }
        ensures inner { self.new.kept.inner ≡ self.old.kept.inner }
    {
        self.push_back(facts, back.connection, back.reason)?;
        self.finish(alloc, moment, request, Phase::Over)?;
        self.place_back(alloc, moment, back.connection, back.reason)?;
        Ok(())
    }

    // A request that has no connection is given up.
    pub(crate) fn quit(
        &mut self,
        alloc: Global,
        facts: &mut Vec<Fact>,
        moment: Moment,
        request: Request,
    ) -> Result<(), OutOfMemory>
        requires came { is_some (request_at self.old request.number) ≡ true }
        requires there { is_gone self.old.kept.settled (request_at self.old request.number) ≡ false }
        ensures core { OnOk result (self.new ≡ quitting self.old moment request) }
        ensures facts { OnOk result (facts.new.items ≡ facts.old.items ++ Ended request.number GaveUp ∷ []) }
        ensures inner { self.new.kept.inner ≡ self.old.kept.inner }
    {
        facts.push(Fact::Ended(request.number, End::GaveUp))?;
        self.finish(alloc, moment, request, Phase::Ended(End::GaveUp))?;
        Ok(())
    }

    // A request whose connection is pending is given up.
    #[tactic(auto, using(crate::proofs::Listed::Beside::stays_same))]
    pub(crate) fn leave(
        &mut self,
        alloc: Global,
        facts: &mut Vec<Fact>,
        moment: Moment,
        connection: Connection,
        request: Request,
    ) -> Result<(), OutOfMemory>
        requires came { is_some (request_at self.old request.number) ≡ true }
        requires there { is_gone self.old.kept.settled (request_at self.old request.number) ≡ false }
        requires live { connection_at self.old connection.id ≡ Some connection }
        ensures core { OnOk result (self.new ≡ leaving self.old moment connection request) }
        ensures facts { OnOk result (facts.new.items ≡ facts.old.items ++ Ended request.number GaveUp ∷ []) }
        ensures inner { self.new.kept.inner ≡ self.old.kept.inner }
    {
        self.quit(alloc, facts, moment, request)?;
        self.replace_connection(
            alloc,
            Connection {
                holder: None,
                used: Use::Ok,
                ..connection
            },
        )?;
        Ok(())
    }

    // A request whose connection is held is given up, and the connection is available or closed.
    pub(crate) fn hand_back(
        &mut self,
        alloc: Global,
        facts: &mut Vec<Fact>,
        moment: Moment,
        back: CheckIn,
        request: Request,
    ) -> Result<(), OutOfMemory>
        requires came { is_some (request_at self.old request.number) ≡ true }
        requires there { is_gone self.old.kept.settled (request_at self.old request.number) ≡ false }
        requires lives { is_some (connection_at self.old back.connection.id) ≡ true }
        ensures core { OnOk result (self.new ≡ handing_for self.old moment back.connection request back.reason) }
        ensures facts { OnOk result (facts.new.items ≡ facts.old.items ++ Ended request.number GaveUp ∷ back_facts self.old back.connection back.reason) }
        ensures inner { self.new.kept.inner ≡ self.old.kept.inner }
    {
        facts.push(Fact::Ended(request.number, End::GaveUp))?;
        self.push_back(facts, back.connection, back.reason)?;
        self.finish(alloc, moment, request, Phase::Ended(End::GaveUp))?;
        self.place_back(alloc, moment, back.connection, back.reason)?;
        Ok(())
    }
}

//! Checking connections out and in (CMAP, "Checking Out a Connection" and "Checking In a Connection").

ghost use Rattle.std.specs.Prelude.{◌≡◌, IsTrue, IfOk, IfErr, OnOk, OnErr};
ghost use Rattle.mdb_log.specs.Driver.{is_reply_to, is_in_time};
ghost use Rattle.mdb_log.specs.declared.reply.Reply.TheVariants.{Done};
ghost use Rattle.mdb_turns.specs.Stepping.{Stepped, OnlySaw};
ghost use Rattle.mdb_shared.specs.Seats.{FoundBusy};
ghost use Rattle.mdb_shared.specs.Checkout.{collecting, returning, giving_up, told_by, is_back_in_time, Names, ComesBack};

use crate::driver::SharedDriver;
use crate::seat::Seat;
use mdb_base::OutOfMemory;
use mdb_events::End;
use mdb_log::{Act, Core, PooledConnection, Refused, Reply, Step, Use};
use std::alloc::Global;
use std::sync::Wait;

/// How a request stands.
pub enum Poll {
    /// Its connection, in hand.
    Ready(PooledConnection),
    /// It waits, or its connection is being established: the reply says which.
    NotYet(Reply),
    /// It has ended without a connection in hand.
    Ended(End),
    /// The request isn't open.
    Refused(Refused),
}

/// Why a connection wasn't checked in.
#[derive(Debug, Drop)]
pub enum BackWhy {
    Refused(Refused),
    OutOfMemory,
}

/// A connection that wasn't checked in.
pub struct Back {
    pub connection: PooledConnection,
    pub why: BackWhy,
}

impl<C: Core> SharedDriver<C> {
    /// Asks once how the request stands. Nothing is asked where there is no memory. It may wait for the turn.
    pub fn poll_check_out<R: Wait>(
        &self,
        rt: &R,
        alloc: Global,
        seat: &mut Seat<C>,
        request: u32,
    ) -> Result<Poll, OutOfMemory>
        requires own { seat.old.driver ≡ self.now.id }
        ensures same { (seat.new.driver ≡ seat.old.driver) × (seat.new.number ≡ seat.old.number) }
        ensures busy { FoundBusy seat.old seat.new }
        ensures entry { IfOk result (λ poll. Stepped C.stands seat.old seat.new (collecting request) (told_by poll)) }
        ensures names { IfOk result (λ poll. Names request poll) }
        ensures in_time { IfOk result (λ poll. IsTrue (is_in_time (collecting request).act (told_by poll))) }
        ensures err { OnErr result (OnlySaw seat.old seat.new) }
    {
        let step = Step {
            moment: 0,
            act: Act::Collect(request),
        };
        match self.step(rt, alloc, seat, step)? {
            Reply::Pooled(pool, id) => Ok(Poll::Ready(PooledConnection {
                pool,
                id,
                party: request,
            })),
            Reply::Establishing(pool, id) => Ok(Poll::NotYet(Reply::Establishing(pool, id))),
            Reply::Waiting => Ok(Poll::NotYet(Reply::Waiting)),
            Reply::Ended(end) => Ok(Poll::Ended(end)),
            Reply::Refused(why) => Ok(Poll::Refused(why)),
            _ => unreachable!(),
        }
    }

    /// Gives the connection back. It comes back itself where the party doesn't hold it, and where there is no memory. It may wait for the turn.
    pub fn check_in<R: Wait>(
        &self,
        rt: &R,
        alloc: Global,
        seat: &mut Seat<C>,
        connection: PooledConnection,
        used: Use,
    ) -> Result<(), Back>
        requires own { seat.old.driver ≡ self.now.id }
        ensures same { (seat.new.driver ≡ seat.old.driver) × (seat.new.number ≡ seat.old.number) }
        ensures busy { FoundBusy seat.old seat.new }
        ensures entry { OnOk result (Stepped C.stands seat.old seat.new (returning connection used) Done) }
        ensures connection { IfErr result (λ back. back.connection ≡ connection) }
        ensures why { IfErr result (λ back. ComesBack C.stands seat.old seat.new (returning connection used) back.why) }
        ensures in_time { IfErr result (λ back. IsTrue (is_back_in_time (returning connection used).act back.why)) }
    {
        let step = Step {
            moment: 0,
            act: Act::Return(connection.party, used),
        };
        match self.step(rt, alloc, seat, step) {
            Ok(Reply::Done) => {
                let PooledConnection {
                    pool: _,
                    id: _,
                    party: _,
                } = connection;
                Ok(())
            }
            Ok(Reply::Refused(why)) => Err(Back {
                connection,
                why: BackWhy::Refused(why),
            }),
            Ok(_) => unreachable!(),
            Err(OutOfMemory) => Err(Back {
                connection,
                why: BackWhy::OutOfMemory,
            }),
        }
    }

    /// The caller of the request no longer wants its connection. Nothing is done where there is no memory. It may wait for the turn.
    pub fn give_up<R: Wait>(
        &self,
        rt: &R,
        alloc: Global,
        seat: &mut Seat<C>,
        request: u32,
    ) -> Result<Reply, OutOfMemory>
        requires own { seat.old.driver ≡ self.now.id }
        ensures same { (seat.new.driver ≡ seat.old.driver) × (seat.new.number ≡ seat.old.number) }
        ensures busy { FoundBusy seat.old seat.new }
        ensures entry { IfOk result (λ reply. Stepped C.stands seat.old seat.new (giving_up request) reply) }
        ensures kind { IfOk result (λ reply. IsTrue (is_reply_to (giving_up request).act reply)) }
        ensures in_time { IfOk result (λ reply. IsTrue (is_in_time (giving_up request).act reply)) }
        ensures err { OnErr result (OnlySaw seat.old seat.new) }
    {
        let step = Step {
            moment: 0,
            act: Act::GiveUp(request),
        };
        self.step(rt, alloc, seat, step)
    }
}

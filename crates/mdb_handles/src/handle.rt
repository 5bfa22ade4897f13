//! A thread's handle on a driver: its seat, with all that the calls of a seat need. So all calls of a thread are methods of one value.

ghost use Rattle.std.specs.Prelude.{◌≡◌, ◌+◌, ◌<◌, ◌≤◌, ◌^◌, [], IsTrue, IfOk, IfErr, IfSome, IfNone, OnOk, OnErr, length};
ghost use Rattle.mdb_log.specs.Acts.{IsDriverAct};
ghost use Rattle.mdb_log.specs.Driver.{is_reply_to};
ghost use Rattle.mdb_log.specs.declared.step.Act.TheVariants.{Collect, GiveUp, Return};
ghost use Rattle.mdb_log.specs.declared.reply.Reply.TheVariants.{Done, Refused as IsRefused};
ghost use Rattle.mdb_shared.specs.Checkout.{told_by, Names};
ghost use Rattle.mdb_shared.specs.Seats.{HasCore};
ghost use Rattle.mdb_handles.specs.CheckingOut.{CheckedOut, CheckedOutWithin};
ghost use Rattle.mdb_workers.specs.Filling.{Filled, FilledInPart};
ghost use Rattle.mdb_handles.specs.Handles.{IsSameHandle};
ghost use Rattle.mdb_workers.specs.Making.{Made, OneMore, OneMoreAt, StaysOut};
ghost use Rattle.mdb_handles.specs.Numbers.{first_of, end_of};

use crate::asking::{CheckOutError, check_out, check_out_within};
use crate::numbers::PartyNumbers;
use mdb_base::{OutOfMemory, ServerAddress};
use mdb_log::{Core, PooledConnection, Reply, Step, Use};
use mdb_shared::{Back, Look, Poll, Seat, SharedDriver};
use mdb_workers::{
    Access, Fill, Unreturned, abandon, add, ask, fill_pool, give_back, glance, hand_back, let_go,
    rest,
};
use std::alloc::Global;
use std::marker::Model;
use std::rt::Clock;
use std::sync::Wait;
use std::time::Duration;

/// A thread at its seat of a shared driver: the seat, the numbers for its requests, and the driver, the runtime and the allocator that every call of the seat
/// needs. Its calls are those of the functions and of the driver by the same names. Contracts see the seat and the numbers that are left. With one that is dropped
/// its seat is gone, which `close` of the driver wants back.
#[must_use]
#[derive(Drop)]
pub struct Handle<'a, C: Core, R: Wait> {
    pub(crate) access: Access<'a, C, R>,
    pub(crate) seat: Seat<C>,
    numbers: PartyNumbers,
}

impl<'a, C: Core, R: Wait> Model for Handle<'a, C, R> {
    ghost use Rattle.std.specs.Prelude.{◌≡◌};
    ghost use Rattle.std.specs.Coded.{codes};
    ghost use Rattle.mdb_base.specs.DocumentCode.{fields_coded};
    ghost use Rattle.mdb_handles.specs.Handles.{HandleView};

    ghost Value = { HandleView };

    ghost coded = { Prim.hlevel (codes, fields_coded) };

    ghost view = { λ h. record { seat = h.seat; numbers = h.numbers } };

    ghost invariant = { λ h. h.seat.driver ≡ h.access.driver.now.id };
}

impl<'a, C: Core, R: Wait> Handle<'a, C, R> {
    /// A handle at a seat that made no request yet, with all numbers of the seat.
    pub fn new(
        driver: &'a SharedDriver<C>,
        rt: &'a R,
        alloc: Global,
        seat: Seat<C>,
    ) -> Handle<'a, C, R>
        requires own { seat.driver ≡ driver.now.id }
        ensures seat { result.seat ≡ seat }
        ensures next { seat.number < driver.now.seats → result.numbers.next ≡ first_of driver.now.seats seat.number }
        ensures end { seat.number < driver.now.seats → result.numbers.end ≡ end_of driver.now.seats seat.number }
    {
        let numbers = PartyNumbers::new(seat.number(), driver.seats());
        Handle {
            access: Access { driver, rt, alloc },
            seat,
            numbers,
        }
    }

    /// The seat, which `close` of the driver wants back.
    pub fn into_seat(self) -> Seat<C>
        ensures { result ≡ self.entry.seat }
    {
        let Handle {
            access: _,
            seat,
            numbers: _,
        } = self;
        seat
    }

    /// The first of so many numbers in a row for requests, which are used then. None where the seat has not so many left.
    pub fn take_numbers(&mut self, count: u32) -> Option<u32>
        requires { 0 < count }
        ensures some { IfSome result (λ first. (first ≡ self.old.numbers.next) × (first + count ≤ self.old.numbers.end) × (self.new.numbers.next ≡ first + count)) }
        ensures none { IfNone result (self.new.numbers ≡ self.old.numbers) }
        ensures end { self.new.numbers.end ≡ self.old.numbers.end }
        ensures seat { self.new.seat ≡ self.old.seat }
    {
        self.numbers.take(count)
    }

    /// Adds one entry to the log. The moment of the step is raised to the last one where it is smaller. It may wait for the turn.
    pub fn step(&mut self, step: Step) -> Result<Reply, OutOfMemory>
        requires act { IsDriverAct step.act }
        ensures same { IsSameHandle self.old self.new }
        ensures ok { IfOk result (λ reply. OneMoreAt C.stands step.moment self.old.seat self.new.seat step.act reply) }
        ensures kind { IfOk result (λ reply. IsTrue (is_reply_to step.act reply)) }
        ensures err { OnErr result (Made C.stands self.old.seat self.new.seat []) }
    {
        add(&self.access, &mut self.seat, step)
    }

    /// Requests a connection to the address, and waits for it, as `check_out` does.
    pub fn check_out(
        &mut self,
        request: u32,
        address: ServerAddress,
    ) -> Result<PooledConnection, CheckOutError>
        ensures same { IsSameHandle self.old self.new }
        ensures answer { CheckedOut C.stands request address self.old.seat self.new.seat result }
    {
        check_out(&self.access, &mut self.seat, request, address)
    }

    /// Asks once how the request stands.
    pub fn poll_check_out(&mut self, request: u32) -> Result<Poll, OutOfMemory>
        ensures same { IsSameHandle self.old self.new }
        ensures ok { IfOk result (λ poll. OneMore C.stands self.old.seat self.new.seat (Collect request) (told_by poll)) }
        ensures names { IfOk result (λ poll. Names request poll) }
        ensures err { OnErr result (Made C.stands self.old.seat self.new.seat []) }
    {
        ask(&self.access, &mut self.seat, request)
    }

    /// Gives the connection back, as `check_in` of the driver does.
    pub fn check_in(&mut self, connection: PooledConnection, used: Use) -> Result<(), Back>
        ensures same { IsSameHandle self.old self.new }
        ensures ok { OnOk result (OneMore C.stands self.old.seat self.new.seat (Return connection.party used) Done) }
        ensures connection { IfErr result (λ back. back.connection ≡ connection) }
        ensures why { IfErr result (λ back. StaysOut C.stands self.old.seat self.new.seat (Return connection.party used) back.why) }
    {
        give_back(&self.access, &mut self.seat, connection, used)
    }

    /// Gives the connection back, and tries again while there is no memory, as `hand_back` does.
    pub fn hand_back(&mut self, connection: PooledConnection, used: Use) -> Result<(), Unreturned>
        ensures same { IsSameHandle self.old self.new }
        ensures ok { OnOk result (OneMore C.stands self.old.seat self.new.seat (Return connection.party used) Done) }
        ensures err { IfErr result (λ back. (back.connection ≡ connection) × OneMore C.stands self.old.seat self.new.seat (Return connection.party used) (IsRefused back.why)) }
    {
        hand_back(&self.access, &mut self.seat, connection, used)
    }

    /// Gives a request up, its own or another seat's.
    pub fn give_up(&mut self, request: u32) -> Result<Reply, OutOfMemory>
        ensures same { IsSameHandle self.old self.new }
        ensures ok { IfOk result (λ reply. OneMore C.stands self.old.seat self.new.seat (GiveUp request) reply) }
        ensures kind { IfOk result (λ reply. IsTrue (is_reply_to (GiveUp request) reply)) }
        ensures err { OnErr result (Made C.stands self.old.seat self.new.seat []) }
    {
        let_go(&self.access, &mut self.seat, request)
    }

    /// Gives a request up, and tries again while there is no memory, as `abandon` does.
    pub fn abandon(&mut self, request: u32) -> Reply
        ensures same { IsSameHandle self.old self.new }
        ensures entry { OneMore C.stands self.old.seat self.new.seat (GiveUp request) result }
    {
        abandon(&self.access, &mut self.seat, request)
    }

    /// Makes warm requests at the address, as `fill_pool` does.
    pub fn fill_pool(
        &mut self,
        address: ServerAddress,
        first: u32,
        budget: u32,
    ) -> Result<Fill, OutOfMemory>
        requires numbers { first + budget < 2 ^ 32 }
        ensures same { IsSameHandle self.old self.new }
        ensures ok { IfOk result (Filled C.stands address first budget self.old.seat self.new.seat) }
        ensures err { OnErr result (FilledInPart C.stands address first budget self.old.seat self.new.seat) }
    {
        fill_pool(&self.access, &mut self.seat, address, first, budget)
    }

    /// Looks at the driver, in the turn and without an entry.
    pub fn look<L: Look<C>>(&mut self, look: &L) -> L::Found
        ensures same { IsSameHandle self.old self.new }
        ensures saw { Made C.stands self.old.seat self.new.seat [] }
        ensures told { L.tells look.now self.new.seat.seen result }
        ensures fits { HasCore C.stands self.new.seat }
    {
        glance(&self.access, &mut self.seat, look)
    }

    /// Sleeps until an entry is news to others, for no longer than this time. It may also return for no reason.
    pub fn rest(&mut self, most: Duration)
        ensures same { IsSameHandle self.old self.new }
        ensures saw { Made C.stands self.old.seat self.new.seat [] }
    {
        rest(&self.access, &mut self.seat, most)
    }
}

impl<'a, C: Core, R: Wait + Clock> Handle<'a, C, R> {
    /// Requests a connection to the address, and waits for it as long as this, as `check_out_within` does.
    pub fn check_out_within(
        &mut self,
        request: u32,
        address: ServerAddress,
        limit: Duration,
    ) -> Result<PooledConnection, CheckOutError>
        ensures same { IsSameHandle self.old self.new }
        ensures answer { CheckedOutWithin C.stands request address self.old.seat self.new.seat result }
    {
        check_out_within(&self.access, &mut self.seat, request, address, limit)
    }
}

//! What is known when an event comes.

use crate::caller::Caller;
use crate::connection::Connection;
use crate::facts::Facts;
use crate::former::Former;
use crate::turns::Turns;

/// What was told of the event's pool and of those before it at its address, and of the connection and the check-out that it names.
#[derive(Clone, Copy, Debug)]
pub struct Glance {
    pub former: Former,
    pub facts: Facts,
    pub connection: Connection,
    pub turns: Turns,
    pub caller: Caller,
}

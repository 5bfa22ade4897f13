//! A check of a server: how it begins, how it ends, and what follows.

use mdb_base::{Error, Moment, Nanos};
use mdb_events::SdamEvent;
use mdb_hello::{AwaitableHelloOptions, HelloReply};

/// A check that begins.
#[derive(Debug, Drop)]
pub struct Begin {
    /// The server is to answer when something changes.
    pub awaited: bool,
    /// The number of the connection that the check uses or makes.
    pub driver_connection_id: u32,
    pub action: Action,
    /// After how many milliseconds the check counts as a network timeout.
    pub timeout: Moment,
    /// That the check began.
    pub event: SdamEvent,
}

/// What a check does.
#[derive(Clone, Copy, Debug, PartialEq, Eq)]
pub enum Action {
    /// It makes a connection, whose handshake is the check.
    Connect,
    /// It reads the next of several replies.
    Read,
    /// It sends a hello command. With options the server answers when something changes.
    Hello(Option<AwaitableHelloOptions>),
}

/// How a check ended.
#[derive(Debug, Drop)]
pub enum CheckResult {
    /// By a reply; the flag says that more replies come without a command.
    Ok(HelloReply, bool),
    /// By an error.
    Err(Error),
    /// It was cancelled for this cause.
    Cancelled(Error),
}

/// What follows from a check that ended.
#[derive(Debug, Drop)]
pub struct Finish {
    /// That the check succeeded or failed.
    pub event: SdamEvent,
    pub report: Report,
    pub next: Next,
}

/// What a check tells the topology.
#[derive(Debug, Drop)]
pub enum Report {
    /// The reply, and the average round trip in nanoseconds.
    Update(HelloReply, Nanos),
    /// The server could not be checked.
    Error(Error),
    /// Nothing.
    Nothing,
}

/// What the monitor does next.
#[derive(Clone, Copy, Debug, PartialEq, Eq)]
pub enum Next {
    /// It checks at once, since a server that was available may have restarted.
    Retry,
    /// It waits for the next moment of a check, or for a request.
    Sleep,
    /// It checks at once: the server answers when something changes.
    Continue,
}

//! The steps of a proxy, and what the one who made a step is told.

use mdb_base::{Moment, ServerAddress};
use mdb_log::{Act, Reply, Use};

/// What a step of a proxy does.
#[derive(Debug, Drop)]
pub enum ProxyAct {
    /// A tenant, by its number, asks for a connection to the address; the second number is that of the request.
    Ask(u32, u32, ServerAddress),
    /// The caller of a request, by its number, asks how it stands.
    Collect(u32),
    /// The caller of a request returns its connection.
    Finish(u32, Use),
    /// An act that is handed to the core as it is. It is one of workers, monitors and watchers, or an expiry or a stop.
    Pass(Act),
}

/// One step of a proxy.
#[derive(Debug, Drop)]
pub struct ProxyStep {
    pub moment: Moment,
    pub act: ProxyAct,
}

/// Why a proxy refused a step. The first reason that holds is told, in this order.
#[derive(Clone, Copy, Debug, PartialEq, Eq)]
pub enum ProxyRefused {
    /// The moment is before that of the core's last accepted step, which is carried.
    TimeBack(Moment),
    /// No tenant has the number.
    NoTenant,
    /// The number was used by an earlier ask.
    RequestKnown,
    /// The request was never asked, or its outcome was told, or it was finished.
    UnknownRequest,
    /// The act isn't one that is handed on.
    NotPassed,
}

/// What the one who made a step is told.
#[derive(Debug, Drop)]
pub enum ProxyReply {
    /// The reply of the core.
    Core(Reply),
    /// The request is held back: its tenant has its share at the address.
    Held,
    /// The proxy refused the step, which changed nothing.
    Refused(ProxyRefused),
}

/// The reply to a step, and whether memory ran out before all was handed on that could be. The next step that isn't refused goes on with it.
#[derive(Debug, Drop)]
pub struct Answer {
    pub reply: ProxyReply,
    pub behind: bool,
}

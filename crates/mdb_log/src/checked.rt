//! What hellos and checks of servers came to.

ghost use Rattle.std.specs.Prelude.{◌≡◌};

use mdb_base::{Error, Nanos};
use mdb_events::Boxed;
use mdb_hello::HelloCommandResponse;
use std::alloc::AllocError;

/// What the hello of a connection that was made came to.
#[derive(Debug, Drop)]
pub enum HelloResult {
    /// The round trip, and the reply.
    Ok(Nanos, Boxed<HelloCommandResponse>),
    Err(Boxed<Error>),
}

impl Clone for HelloResult {
    ghost is_clone = { λ s t. t ≡ s };

    fn clone(&self) -> Result<HelloResult, AllocError> {
        Ok(match self {
            HelloResult::Ok(rtt, reply) => HelloResult::Ok(*rtt, reply.clone()?),
            HelloResult::Err(error) => HelloResult::Err(error.clone()?),
        })
    }
}

/// What the check of a monitor came to.
#[derive(Debug, Drop)]
pub enum BeatenResult {
    /// The reply, and whether the server sends more replies unasked.
    Ok(Boxed<HelloCommandResponse>, bool),
    Err(Boxed<Error>),
    /// The check was cancelled by this cause.
    Cancelled(Boxed<Error>),
}

impl Clone for BeatenResult {
    ghost is_clone = { λ s t. t ≡ s };

    fn clone(&self) -> Result<BeatenResult, AllocError> {
        Ok(match self {
            BeatenResult::Ok(reply, more) => BeatenResult::Ok(reply.clone()?, *more),
            BeatenResult::Err(error) => BeatenResult::Err(error.clone()?),
            BeatenResult::Cancelled(error) => BeatenResult::Cancelled(error.clone()?),
        })
    }
}

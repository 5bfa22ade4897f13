//! Filling pools up to their minimum (CMAP, "Populating the Pool with minPoolSize").

ghost use Rattle.std.specs.Prelude.{◌≡◌, ◌+◌, ◌<◌, ◌^◌, [], IfOk, OnErr};
ghost use Rattle.mdb_log.specs.declared.step.Act.TheVariants.{Warm};
ghost use Rattle.mdb_workers.specs.Making.{Made, OneMore};
ghost use Rattle.mdb_workers.specs.Filling.{Filled, FilledInPart, told_reply};

use crate::access::Access;
use crate::steps::add;
use mdb_base::{OutOfMemory, ServerAddress};
use mdb_log::{Act, Core, Reply, Step};
use mdb_shared::Seat;
use std::sync::Wait;

/// What filling a pool came to.
#[derive(Debug, Drop)]
pub struct Fill {
    /// How many warm requests were made.
    pub made: u32,
    /// The reply to the last one.
    pub last: Option<Reply>,
}

// One warm request.
fn warm<C: Core, R: Wait>(
    access: &Access<'_, C, R>,
    seat: &mut Seat<C>,
    address: &ServerAddress,
    request: u32,
) -> Result<Reply, OutOfMemory>
    requires own { seat.old.driver ≡ access.now.driver.now.id }
    ensures same { (seat.new.driver ≡ seat.old.driver) × (seat.new.number ≡ seat.old.number) }
    ensures ok { IfOk result (λ reply. OneMore C.stands seat.old seat.new (Warm request address.now) reply) }
    ensures err { OnErr result (Made C.stands seat.old seat.new []) }
{
    let address = address.clone()?;
    let step = Step {
        moment: 0,
        act: Act::Warm(request, address),
    };
    add(access, seat, step)
}

// The reply that names the connection, where there is one.
fn made_reply(last: Option<(u32, u32)>) -> Option<Reply>
    ensures { result ≡ told_reply last }
{
    let (pool, id) = last?;
    Some(Reply::Establishing(pool, id))
}

// Makes warm requests until one isn't answered `Establishing`, or the budget is spent.
fn fill_at<C: Core, R: Wait>(
    access: &Access<'_, C, R>,
    seat: &mut Seat<C>,
    address: &ServerAddress,
    first: u32,
    budget: u32,
) -> Result<Fill, OutOfMemory>
    requires own { seat.old.driver ≡ access.now.driver.now.id }
    requires numbers { first + budget < 2 ^ 32 }
    ensures same { (seat.new.driver ≡ seat.old.driver) × (seat.new.number ≡ seat.old.number) }
    ensures ok { IfOk result (Filled C.stands address.now first budget seat.old seat.new) }
    ensures err { OnErr result (FilledInPart C.stands address.now first budget seat.old seat.new) }
{
    let mut last = None;
    for made in 0..budget {
        match warm(access, seat, address, first + made)? {
            Reply::Establishing(pool, id) => last = Some((pool, id)),
            reply => {
                return Ok(Fill {
                    made: made + 1,
                    last: Some(reply),
                });
            }
        }
    }
    Ok(Fill {
        made: budget,
        last: made_reply(last),
    })
}

/// Makes warm requests at the address, numbered from `first`, until one isn't answered `Establishing` or `budget` were made. After
/// `OutOfMemory` those that were made stand in the log. It may wait for the turn.
pub fn fill_pool<C: Core, R: Wait>(
    access: &Access<'_, C, R>,
    seat: &mut Seat<C>,
    address: ServerAddress,
    first: u32,
    budget: u32,
) -> Result<Fill, OutOfMemory>
    requires own { seat.old.driver ≡ access.now.driver.now.id }
    requires numbers { first + budget < 2 ^ 32 }
    ensures same { (seat.new.driver ≡ seat.old.driver) × (seat.new.number ≡ seat.old.number) }
    ensures ok { IfOk result (Filled C.stands address first budget seat.old seat.new) }
    ensures err { OnErr result (FilledInPart C.stands address first budget seat.old seat.new) }
{
    fill_at(access, seat, &address, first, budget)
}

//! Facts that tell an event of a server or of the topology.

ghost use Rattle.std.specs.Prelude.{◌≡◌, ◌++◌, ◌∷◌, [], IfOk, OnOk};
ghost use Rattle.mdb_events.specs.declared.fact.Fact.TheVariants.{Sdam};

use mdb_events::{Boxed, Fact, SdamEvent};
use std::alloc::{AllocError, Global};

/// The fact that the event was made.
pub fn sdam_fact(alloc: Global, event: SdamEvent) -> Result<Fact, AllocError>
    ensures { IfOk result (λ fact. fact ≡ Sdam event) }
{
    let event = Boxed::new(alloc, event)?;
    Ok(Fact::Sdam(event))
}

/// One more fact: the event was made.
pub fn tell_event(alloc: Global, facts: &mut Vec<Fact>, event: SdamEvent) -> Result<(), AllocError>
    ensures { OnOk result (facts.new.items ≡ facts.old.items ++ Sdam event ∷ []) }
{
    let fact = sdam_fact(alloc, event)?;
    facts.push(fact)?;
    Ok(())
}

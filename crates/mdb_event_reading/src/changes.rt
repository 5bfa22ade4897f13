//! Reading the events that tell of descriptions, openings and closings.

ghost use Rattle.mdb_event_reading.specs.SdamForms.{ReadsServerChanged, ReadsServerOpening, ReadsServerClosed, ReadsTopologyChanged};

use crate::shown_sdam::ShownSdam;
use crate::type_words::server_type;
use crate::words::kind_and_size;
use mdb_parts::LineError;
use mdb_parts::values::address_word;
use mdb_parts::words::{field, last};
use std::alloc::Global;

/// A server's description changed: its address and both types.
#[tactic(auto, using(crate::proofs::OfSdam::WordLemmas::type_lacks, mdb_parts::proofs::TextLemmas::follows, mdb_parts::proofs::AddressLemmas::address_lacks))]
pub fn server_changed(alloc: Global, text: &str) -> Result<ShownSdam, LineError>
    ensures { ReadsServerChanged text.now result }
{
    let (place, rest) = field(text, " ")?;
    let (old, rest) = field(rest, " ")?;
    let new = last(rest, " ")?;
    let old = server_type(old)?;
    let new = server_type(new)?;
    let address = address_word(alloc, place)?;
    Ok(ShownSdam::ServerChanged(address, old, new))
}

/// A server came: its address.
pub fn server_opening(alloc: Global, text: &str) -> Result<ShownSdam, LineError>
    ensures { ReadsServerOpening text.now result }
{
    let word = last(text, " ")?;
    let address = address_word(alloc, word)?;
    Ok(ShownSdam::ServerOpening(address))
}

/// A server went: its address.
pub fn server_closed(alloc: Global, text: &str) -> Result<ShownSdam, LineError>
    ensures { ReadsServerClosed text.now result }
{
    let word = last(text, " ")?;
    let address = address_word(alloc, word)?;
    Ok(ShownSdam::ServerClosed(address))
}

/// The topology's description changed: both types, each with the number of servers.
#[tactic(auto, using(crate::proofs::OfSdam::WordLemmas::kind_lacks, mdb_parts::proofs::TextLemmas::follows))]
pub fn topology_changed(text: &str) -> Result<ShownSdam, LineError>
    ensures { ReadsTopologyChanged text.now result }
{
    let (old, rest) = field(text, " ")?;
    let new = last(rest, " ")?;
    let (old, count) = kind_and_size(old)?;
    let (new, size) = kind_and_size(new)?;
    Ok(ShownSdam::TopologyChanged(old, count, new, size))
}

//! What the driver in a slot tells of its topology and its servers, without a step.

ghost use Rattle.std.specs.Prelude.{◌≡◌, ◌≢◌, ◌↔◌, ◌++◌, ◌<◌, ℕ, List, None, Some, length, drop};
ghost use Rattle.mdb_base.specs.declared.address.ServerAddress.{ServerAddress as Address};
ghost use Rattle.mdb_log.specs.declared.log.Entry.{Entry};
ghost use Rattle.mdb_driver_rules.specs.Lines.{described};
ghost use Rattle.mdb_session.specs.Texts.{IsAddressOf};
ghost use Rattle.mdb_c.specs.Servers.{numbers_at, text_at, place_of};
ghost use Rattle.mdb_c.specs.Topologies.{topology_numbers, topology_text};

use crate::given::give;
use crate::server_numbers::{ServerNumbers, numbers_of_server};
use crate::server_texts::text_at;
use crate::topology_numbers::{TopologyNumbers, numbers_of_topology};
use crate::topology_texts::text_of_topology;
use mdb_base::ServerAddress;
use mdb_describe::ServerDescription;
use mdb_session::{
    CLOSED, MALFORMED, NO_ENTRY, NO_MEMORY, NO_ROOM, OK, Slot, Status, address_in, status_of,
};
use std::alloc::Global;

/// Tells the numbers of the topology.
#[unsafe(no_mangle)]
pub extern "C" fn mdb_topology_get(
    alloc: Global,
    slot: &mut Slot,
    told: &mut TopologyNumbers,
) -> Status
    ensures ok { result ≡ OK → (log : List Entry) × (slot.old.word.value ≡ Some log) × (told.new ≡ topology_numbers (described log)) }
    ensures other { result ≢ OK → (result ≡ CLOSED) × (slot.old.word.value ≡ None) × (told.new ≡ told.old) }
    ensures same { slot.new.word.value ≡ slot.old.word.value }
{
    let Some(session) = slot.take(alloc) else {
        return CLOSED;
    };
    *told = numbers_of_topology(session.described());
    *slot = Slot::holding(session);
    OK
}

/// Writes a text of the topology, by its number, to the beginning of `out`, and how long it is to `needed`.
#[unsafe(no_mangle)]
pub extern "C" fn mdb_topology_text(
    alloc: Global,
    slot: &mut Slot,
    which: u32,
    out: &mut [u8],
    needed: &mut usize,
) -> Status
    ensures ok { result ≡ OK → (log : List Entry) × (text : List ℕ) × (slot.old.word.value ≡ Some log) × (topology_text which (described log) ≡ Some text) × (needed.new ≡ length text) × (out.new ≡ text ++ drop (length text) out.old) }
    ensures room { result ≡ NO_ROOM → (log : List Entry) × (text : List ℕ) × (slot.old.word.value ≡ Some log) × (topology_text which (described log) ≡ Some text) × (needed.new ≡ length text) × (length out.old < length text) }
    ensures none { result ≡ NO_ENTRY → (log : List Entry) × (slot.old.word.value ≡ Some log) × (topology_text which (described log) ≡ None) }
    ensures other { result ≢ OK → out.new ≡ out.old }
    ensures same { slot.new.word.value ≡ slot.old.word.value }
    ensures closed { (result ≡ CLOSED) ↔ (slot.old.word.value ≡ None) }
    ensures answers { result ≢ OK → result ≢ NO_MEMORY → result ≢ NO_ROOM → result ≢ NO_ENTRY → result ≡ CLOSED }
    ensures needed { result ≢ OK → result ≢ NO_ROOM → needed.new ≡ 0 }
{
    *needed = 0;
    let Some(session) = slot.take(alloc) else {
        return CLOSED;
    };
    let text = text_of_topology(alloc, session.described(), which);
    *slot = Slot::holding(session);
    match text {
        Ok(Some(text)) => give(text.as_str(), out, needed),
        Ok(None) => NO_ENTRY,
        Err(_) => NO_MEMORY,
    }
}

// The numbers of the server at the place.
fn numbers_at(servers: &[ServerDescription], index: usize) -> Option<ServerNumbers>
    ensures { result ≡ numbers_at servers.now index }
{
    match servers.get(index) {
        Some(server) => Some(numbers_of_server(server)),
        None => None,
    }
}

/// Tells the numbers of a server, by its place in the order of the servers' addresses.
#[unsafe(no_mangle)]
pub extern "C" fn mdb_server_get(
    alloc: Global,
    slot: &mut Slot,
    index: usize,
    told: &mut ServerNumbers,
) -> Status
    ensures ok { result ≡ OK → (log : List Entry) × (slot.old.word.value ≡ Some log) × (numbers_at (described log).servers index ≡ Some told.new) }
    ensures none { result ≡ NO_ENTRY → (log : List Entry) × (slot.old.word.value ≡ Some log) × (numbers_at (described log).servers index ≡ None) }
    ensures other { result ≢ OK → told.new ≡ told.old }
    ensures same { slot.new.word.value ≡ slot.old.word.value }
    ensures closed { (result ≡ CLOSED) ↔ (slot.old.word.value ≡ None) }
    ensures answers { result ≢ OK → result ≢ NO_ENTRY → result ≡ CLOSED }
{
    let Some(session) = slot.take(alloc) else {
        return CLOSED;
    };
    let found = numbers_at(session.described().servers(), index);
    *slot = Slot::holding(session);
    match found {
        Some(numbers) => {
            *told = numbers;
            OK
        }
        None => NO_ENTRY,
    }
}

/// Writes a text of a server, by its place and the text's number, to the beginning of `out`, and how long it is to `needed`.
#[unsafe(no_mangle)]
pub extern "C" fn mdb_server_text(
    alloc: Global,
    slot: &mut Slot,
    index: usize,
    which: u32,
    out: &mut [u8],
    needed: &mut usize,
) -> Status
    ensures ok { result ≡ OK → (log : List Entry) × (text : List ℕ) × (slot.old.word.value ≡ Some log) × (text_at (described log).servers index which ≡ Some text) × (needed.new ≡ length text) × (out.new ≡ text ++ drop (length text) out.old) }
    ensures room { result ≡ NO_ROOM → (log : List Entry) × (text : List ℕ) × (slot.old.word.value ≡ Some log) × (text_at (described log).servers index which ≡ Some text) × (needed.new ≡ length text) × (length out.old < length text) }
    ensures none { result ≡ NO_ENTRY → (log : List Entry) × (slot.old.word.value ≡ Some log) × (text_at (described log).servers index which ≡ None) }
    ensures other { result ≢ OK → out.new ≡ out.old }
    ensures same { slot.new.word.value ≡ slot.old.word.value }
    ensures closed { (result ≡ CLOSED) ↔ (slot.old.word.value ≡ None) }
    ensures answers { result ≢ OK → result ≢ NO_MEMORY → result ≢ NO_ROOM → result ≢ NO_ENTRY → result ≡ CLOSED }
    ensures needed { result ≢ OK → result ≢ NO_ROOM → needed.new ≡ 0 }
{
    *needed = 0;
    let Some(session) = slot.take(alloc) else {
        return CLOSED;
    };
    let text = text_at(alloc, session.described().servers(), index, which);
    *slot = Slot::holding(session);
    match text {
        Ok(Some(text)) => give(text.as_str(), out, needed),
        Ok(None) => NO_ENTRY,
        Err(_) => NO_MEMORY,
    }
}

// The place of the server with the address.
fn place_of(servers: &[ServerDescription], address: &ServerAddress) -> Option<usize>
    ensures { result ≡ place_of servers.now address.now }
{
    servers.iter().position(|server| server.address.is(address))
}

/// Tells the place of the server with the address.
#[unsafe(no_mangle)]
pub extern "C" fn mdb_server_at(
    alloc: Global,
    slot: &mut Slot,
    address: &[u8],
    index: &mut usize,
) -> Status
    ensures ok { result ≡ OK → (log : List Entry) × (a : Address) × (slot.old.word.value ≡ Some log) × IsAddressOf address.now a × (place_of (described log).servers a ≡ Some index.new) }
    ensures none { result ≡ NO_ENTRY → (log : List Entry) × (a : Address) × (slot.old.word.value ≡ Some log) × IsAddressOf address.now a × (place_of (described log).servers a ≡ None) }
    ensures malformed { result ≡ MALFORMED → (a : Address) → IsAddressOf address.now a → ⊥ }
    ensures other { result ≢ OK → index.new ≡ index.old }
    ensures same { slot.new.word.value ≡ slot.old.word.value }
    ensures closed { result ≡ CLOSED → slot.old.word.value ≡ None }
    ensures answers { result ≢ OK → result ≢ NO_MEMORY → result ≢ MALFORMED → result ≢ NO_ENTRY → result ≡ CLOSED }
{
    let address = match address_in(alloc, address) {
        Ok(address) => address,
        Err(why) => return status_of(why),
    };
    let Some(session) = slot.take(alloc) else {
        return CLOSED;
    };
    let found = place_of(session.described().servers(), &address);
    *slot = Slot::holding(session);
    match found {
        Some(place) => {
            *index = place;
            OK
        }
        None => NO_ENTRY,
    }
}

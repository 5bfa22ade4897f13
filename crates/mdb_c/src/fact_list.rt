//! All facts of the last entry at once, and the numbers of servers.

ghost use Rattle.std.specs.Prelude.{◌≡◌, ◌≢◌, ◌↔◌, ◌<◌, ◌≤◌, List, None, Some, length};
ghost use Rattle.mdb_base.specs.declared.address.ServerAddress.{ServerAddress as Address};
ghost use Rattle.mdb_log.specs.declared.log.Entry.{Entry};
ghost use Rattle.mdb_session.specs.Facts.{AreLastFacts, IsServerNumber, filled};
ghost use Rattle.mdb_session.specs.Texts.{IsAddressOf};
ghost use Rattle.mdb_session.specs.declared.fact_numbers.FactNumbers.{FactNumbers as Numbers};

use mdb_session::{
    CLOSED, FactNumbers, MALFORMED, NO_ENTRY, NO_MEMORY, NO_ROOM, OK, Slot, Status, address_in,
    status_of,
};
use std::alloc::Global;

/// Writes the numbers of all facts of the last entry, in their order, to the beginning of `out`, and how many they are to `count`.
#[unsafe(no_mangle)]
pub extern "C" fn mdb_facts(
    alloc: Global,
    slot: &mut Slot,
    out: &mut [FactNumbers],
    count: &mut usize,
) -> Status
    ensures told { result ≢ CLOSED → (log : List Entry) × (told : List Numbers) × (slot.old.word.value ≡ Some log) × AreLastFacts log told × (count.new ≡ length told) × (out.new ≡ filled told out.old) }
    ensures room { (result ≡ NO_ROOM) → length out.old < count.new }
    ensures fits { (result ≡ OK) → count.new ≤ length out.old }
    ensures same { slot.new.word.value ≡ slot.old.word.value }
    ensures closed { (result ≡ CLOSED) ↔ (slot.old.word.value ≡ None) }
    ensures none { result ≡ CLOSED → (count.new ≡ 0) × (out.new ≡ out.old) }
    ensures answers { result ≢ OK → result ≢ NO_ROOM → result ≡ CLOSED }
{
    *count = 0;
    let Some(session) = slot.take(alloc) else {
        return CLOSED;
    };
    let room = out.len();
    let told = session.facts(out);
    *slot = Slot::holding(session);
    *count = told;
    if told <= room { OK } else { NO_ROOM }
}

/// Tells the number of the server at the address.
#[unsafe(no_mangle)]
pub extern "C" fn mdb_server_number(
    alloc: Global,
    slot: &mut Slot,
    address: &[u8],
    number: &mut u32,
) -> Status
    ensures ok { result ≡ OK → (log : List Entry) × (a : Address) × (slot.old.word.value ≡ Some log) × IsAddressOf address.now a × IsServerNumber log a (Some number.new) }
    ensures none { result ≡ NO_ENTRY → (log : List Entry) × (a : Address) × (slot.old.word.value ≡ Some log) × IsAddressOf address.now a × IsServerNumber log a None }
    ensures malformed { result ≡ MALFORMED → (a : Address) → IsAddressOf address.now a → ⊥ }
    ensures other { result ≢ OK → number.new ≡ number.old }
    ensures same { slot.new.word.value ≡ slot.old.word.value }
    ensures closed { result ≡ CLOSED → slot.old.word.value ≡ None }
    ensures answers { result ≢ OK → result ≢ NO_MEMORY → result ≢ MALFORMED → result ≢ NO_ENTRY → result ≡ CLOSED }
{
    let address = match address_in(alloc, address) {
        Ok(address) => address,
        Err(why) => return status_of(why),
    };
    let Some(session) = slot.take(alloc) else {
        return CLOSED;
    };
    let found = session.server_number(&address);
    *slot = Slot::holding(session);
    match found {
        Some(told) => {
            *number = told;
            OK
        }
        None => NO_ENTRY,
    }
}

//! What a check of a server does that begins now.

ghost use Rattle.std.specs.Prelude.{◌≡◌, ◌≢◌, List, None, Some, IfOk};
ghost use Rattle.mdb_base.specs.declared.address.ServerAddress.{ServerAddress as Address};
ghost use Rattle.mdb_log.specs.declared.log.Entry.{Entry};
ghost use Rattle.mdb_c.specs.Checks.{check_at};
ghost use Rattle.mdb_session.specs.Texts.{IsAddressOf};

use crate::check_numbers::{CheckNumbers, numbers_of_check};
use mdb_base::{OutOfMemory, ServerAddress};
use mdb_session::{
    CLOSED, MALFORMED, NO_ENTRY, NO_MEMORY, OK, Session, Slot, Status, address_in, status_of,
};
use std::alloc::Global;

// The numbers of the check that begins now at the server.
fn check_at(
    alloc: Global,
    session: &Session,
    address: &ServerAddress,
) -> Result<Option<CheckNumbers>, OutOfMemory>
    ensures { IfOk result (λ told. told ≡ check_at session.now address.now) }
{
    match session.next_check(alloc, address)? {
        Some(check) => {
            let numbers = numbers_of_check(session.described().server(address), &check);
            drop(check);
            Ok(Some(numbers))
        }
        None => Ok(None),
    }
}

/// Tells what the check of the server does that begins now (SDAM, "Server Monitoring"), asked before it begins.
#[unsafe(no_mangle)]
pub extern "C" fn mdb_check_get(
    alloc: Global,
    slot: &mut Slot,
    address: &[u8],
    told: &mut CheckNumbers,
) -> Status
    ensures ok { result ≡ OK → (log : List Entry) × (a : Address) × (slot.old.word.value ≡ Some log) × IsAddressOf address.now a × (check_at log a ≡ Some told.new) }
    ensures none { result ≡ NO_ENTRY → (log : List Entry) × (a : Address) × (slot.old.word.value ≡ Some log) × IsAddressOf address.now a × (check_at log a ≡ None) }
    ensures malformed { result ≡ MALFORMED → (a : Address) → IsAddressOf address.now a → ⊥ }
    ensures other { result ≢ OK → told.new ≡ told.old }
    ensures same { slot.new.word.value ≡ slot.old.word.value }
    ensures closed { result ≡ CLOSED → slot.old.word.value ≡ None }
    ensures answers { result ≢ OK → result ≢ NO_MEMORY → result ≢ MALFORMED → result ≢ NO_ENTRY → result ≡ CLOSED }
{
    let address = match address_in(alloc, address) {
        Ok(address) => address,
        Err(why) => return status_of(why),
    };
    let Some(session) = slot.take(alloc) else {
        return CLOSED;
    };
    let found = check_at(alloc, &session, &address);
    *slot = Slot::holding(session);
    match found {
        Ok(Some(numbers)) => {
            *told = numbers;
            OK
        }
        Ok(None) => NO_ENTRY,
        Err(_) => NO_MEMORY,
    }
}

//! What is known of the log, its pools and their pending connections.

ghost use Rattle.std.specs.Prelude.{◌≡◌, ◌≢◌, ◌↔◌, ◌++◌, ◌<◌, ℕ, List, None, Some, IfOk, option_map, string_bytes, length, drop};
ghost use Rattle.mdb_base.specs.declared.address.ServerAddress.{ServerAddress as Address};
ghost use Rattle.mdb_log.specs.History.{history_of, open_pool};
ghost use Rattle.mdb_log.specs.declared.log.Entry.{Entry};
ghost use Rattle.mdb_driver_rules.specs.Lines.{last_of, publications};
ghost use Rattle.mdb_session.specs.Texts.{IsAddressOf};
ghost use Rattle.mdb_c.specs.Jobs.{address_of, job_address};

use crate::given::give;
use mdb_base::OutOfMemory;
use mdb_log::Job;
use mdb_session::{
    CLOSED, MALFORMED, NO_ENTRY, NO_MEMORY, NO_ROOM, OK, Session, Slot, Status, address_in,
    status_of,
};
use std::alloc::Global;

/// Tells the moment of the last step that was accepted.
#[unsafe(no_mangle)]
pub extern "C" fn mdb_last_moment(alloc: Global, slot: &mut Slot, moment: &mut u64) -> Status
    ensures ok { result ≡ OK → (log : List Entry) × (slot.old.word.value ≡ Some log) × (moment.new ≡ last_of log) }
    ensures other { result ≢ OK → (result ≡ CLOSED) × (slot.old.word.value ≡ None) × (moment.new ≡ moment.old) }
    ensures same { slot.new.word.value ≡ slot.old.word.value }
{
    let Some(session) = slot.take(alloc) else {
        return CLOSED;
    };
    *moment = session.last_moment();
    *slot = Slot::holding(session);
    OK
}

/// Tells how often an accepted step told of the topology, its opening included.
#[unsafe(no_mangle)]
pub extern "C" fn mdb_published(alloc: Global, slot: &mut Slot, count: &mut u64) -> Status
    ensures ok { result ≡ OK → (log : List Entry) × (slot.old.word.value ≡ Some log) × (count.new ≡ publications log) }
    ensures other { result ≢ OK → (result ≡ CLOSED) × (slot.old.word.value ≡ None) × (count.new ≡ count.old) }
    ensures same { slot.new.word.value ≡ slot.old.word.value }
{
    let Some(session) = slot.take(alloc) else {
        return CLOSED;
    };
    *count = session.published();
    *slot = Slot::holding(session);
    OK
}

/// Tells the number of the pool that is open at the address.
#[unsafe(no_mangle)]
pub extern "C" fn mdb_open_pool(
    alloc: Global,
    slot: &mut Slot,
    address: &[u8],
    pool: &mut u32,
) -> Status
    ensures ok { result ≡ OK → (log : List Entry) × (a : Address) × (slot.old.word.value ≡ Some log) × IsAddressOf address.now a × (open_pool (history_of log) a ≡ Some pool.new) }
    ensures none { result ≡ NO_ENTRY → (log : List Entry) × (a : Address) × (slot.old.word.value ≡ Some log) × IsAddressOf address.now a × (open_pool (history_of log) a ≡ None) }
    ensures malformed { result ≡ MALFORMED → (a : Address) → IsAddressOf address.now a → ⊥ }
    ensures other { result ≢ OK → pool.new ≡ pool.old }
    ensures same { slot.new.word.value ≡ slot.old.word.value }
    ensures closed { result ≡ CLOSED → slot.old.word.value ≡ None }
    ensures answers { result ≢ OK → result ≢ NO_MEMORY → result ≢ MALFORMED → result ≢ NO_ENTRY → result ≡ CLOSED }
{
    let address = match address_in(alloc, address) {
        Ok(address) => address,
        Err(why) => return status_of(why),
    };
    let Some(session) = slot.take(alloc) else {
        return CLOSED;
    };
    let found = session.open_pool(&address);
    *slot = Slot::holding(session);
    match found {
        Some(number) => {
            *pool = number;
            OK
        }
        None => NO_ENTRY,
    }
}

// The text of the address of the job, if there is one.
fn address_of(alloc: Global, job: &Option<Job>) -> Result<Option<String>, OutOfMemory>
    ensures { IfOk result (λ text. option_map string_bytes text ≡ address_of job.now) }
{
    match job {
        Some(job) => {
            let address = &job.address;
            Ok(Some(format!(in alloc; "{address}")?))
        }
        None => Ok(None),
    }
}

// The text of the address to which the pending connection goes, if it is pending.
fn address_text(
    alloc: Global,
    session: &Session,
    pool: u32,
    id: u32,
) -> Result<Option<String>, OutOfMemory>
    ensures { IfOk result (λ text. option_map string_bytes text ≡ job_address session.now pool id) }
{
    let job = session.job(alloc, pool, id)?;
    address_of(alloc, &job)
}

/// Writes the address to which a pending connection goes (CMAP, "Establishing a Connection") to the beginning of `out`, and how long it is to `needed`.
#[unsafe(no_mangle)]
pub extern "C" fn mdb_job_address(
    alloc: Global,
    slot: &mut Slot,
    pool: u32,
    id: u32,
    out: &mut [u8],
    needed: &mut usize,
) -> Status
    ensures ok { result ≡ OK → (log : List Entry) × (text : List ℕ) × (slot.old.word.value ≡ Some log) × (job_address log pool id ≡ Some text) × (needed.new ≡ length text) × (out.new ≡ text ++ drop (length text) out.old) }
    ensures room { result ≡ NO_ROOM → (log : List Entry) × (text : List ℕ) × (slot.old.word.value ≡ Some log) × (job_address log pool id ≡ Some text) × (needed.new ≡ length text) × (length out.old < length text) }
    ensures none { result ≡ NO_ENTRY → (log : List Entry) × (slot.old.word.value ≡ Some log) × (job_address log pool id ≡ None) }
    ensures other { result ≢ OK → out.new ≡ out.old }
    ensures same { slot.new.word.value ≡ slot.old.word.value }
    ensures closed { (result ≡ CLOSED) ↔ (slot.old.word.value ≡ None) }
    ensures answers { result ≢ OK → result ≢ NO_MEMORY → result ≢ NO_ROOM → result ≢ NO_ENTRY → result ≡ CLOSED }
    ensures needed { result ≢ OK → result ≢ NO_ROOM → needed.new ≡ 0 }
{
    *needed = 0;
    let Some(session) = slot.take(alloc) else {
        return CLOSED;
    };
    let text = address_text(alloc, &session, pool, id);
    *slot = Slot::holding(session);
    match text {
        Ok(Some(text)) => give(text.as_str(), out, needed),
        Ok(None) => NO_ENTRY,
        Err(_) => NO_MEMORY,
    }
}

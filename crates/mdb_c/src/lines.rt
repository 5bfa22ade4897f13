//! The calls that take a line and tell an entry's text.

ghost use Rattle.std.specs.Prelude.{◌≡◌, ◌≢◌, ◌++◌, ◌∷◌, ◌<◌, [], ℕ, List, None, Some, length, drop, true, false};
ghost use Rattle.mdb_log.specs.declared.log.Entry.{Entry};
ghost use Rattle.mdb_log.specs.declared.step.Step.{Step};
ghost use Rattle.mdb_lines.specs.Script.{Spells};
ghost use Rattle.mdb_driver_rules.specs.Lines.{entry_after};
ghost use Rattle.mdb_session.specs.Readable.{IsLastReadable};
ghost use Rattle.mdb_session.specs.Sessions.{IsLastText, IsStepped};

use mdb_session::{
    CLOSED, MALFORMED, NO_MEMORY, NO_ROOM, OK, OPENED, ReplyNumbers, Session, Slot, Status,
    UNSPELLED,
};
use std::alloc::Global;

/// The number of this interface, which changes where a call, a struct or a number of it does.
pub const ABI: u32 = 4;

/// Tells the number of the interface that the library was built for.
#[unsafe(no_mangle)]
pub extern "C" fn mdb_abi() -> u32
    ensures { result ≡ ABI }
{
    ABI
}

/// Opens a driver by an `open` line in a closed slot.
#[unsafe(no_mangle)]
pub extern "C" fn mdb_open_line(alloc: Global, slot: &mut Slot, seat: u32, line: &[u8]) -> Status
    ensures ok { result ≡ OK → (s : Step) × Spells 1 line.now s × (slot.old.word.value ≡ None) × (slot.new.word.value ≡ Some (entry_after seat [] s ∷ [])) }
    ensures other { result ≢ OK → slot.new.word.value ≡ slot.old.word.value }
    ensures malformed { result ≡ MALFORMED → (s : Step) → Spells 1 line.now s → ⊥ }
    ensures opened { result ≡ OPENED → slot.old.word.value ≢ None }
    ensures answers { result ≢ OK → result ≢ NO_MEMORY → result ≢ MALFORMED → result ≡ OPENED }
{
    slot.open_line(alloc, seat, line)
}

/// Does the step that a line spells, any but `open`, and tells the reply.
#[unsafe(no_mangle)]
pub extern "C" fn mdb_line(
    alloc: Global,
    slot: &mut Slot,
    seat: u32,
    line: &[u8],
    reply: &mut ReplyNumbers,
) -> Status
    ensures ok { result ≡ OK → (s : Step) × Spells 2 line.now s × IsStepped slot.old.word.value slot.new.word.value seat s reply.new }
    ensures other { result ≢ OK → (slot.new.word.value ≡ slot.old.word.value) × (reply.new ≡ reply.old) }
    ensures malformed { result ≡ MALFORMED → (s : Step) → Spells 2 line.now s → ⊥ }
    ensures closed { result ≡ CLOSED → slot.old.word.value ≡ None }
    ensures answers { result ≢ OK → result ≢ NO_MEMORY → result ≢ MALFORMED → result ≡ CLOSED }
{
    slot.line(alloc, seat, line, reply)
}

// The same of a session.
fn entry_text(alloc: Global, session: &Session, out: &mut [u8], needed: &mut usize) -> Status
    requires { needed.old ≡ 0 }
    ensures ok { result ≡ OK → (text : List ℕ) × IsLastText session.now text × (needed.new ≡ length text) × (out.new ≡ text ++ drop (length text) out.old) }
    ensures room { result ≡ NO_ROOM → (text : List ℕ) × IsLastText session.now text × (needed.new ≡ length text) × (length out.old < length text) }
    ensures other { result ≢ OK → out.new ≡ out.old }
    ensures readable { result ≡ OK → IsLastReadable session.now true }
    ensures unspelled { result ≡ UNSPELLED → IsLastReadable session.now false }
    ensures answers { result ≢ OK → result ≢ NO_MEMORY → result ≢ NO_ROOM → result ≡ UNSPELLED }
    ensures needed { result ≢ OK → result ≢ NO_ROOM → needed.new ≡ 0 }
{
    match session.is_readable(alloc) {
        Ok(true) => {}
        Ok(false) => return UNSPELLED,
        Err(_) => return NO_MEMORY,
    }
    let room = out.len();
    match session.entry_text(alloc, out) {
        Ok(length) => {
            *needed = length;
            if length <= room { OK } else { NO_ROOM }
        }
        Err(_) => NO_MEMORY,
    }
}

/// Writes the text of the last entry to the beginning of `out`, and how long it is to `needed`. There is none where no line can spell the reply or
/// the error that its step tells of.
#[unsafe(no_mangle)]
pub extern "C" fn mdb_entry_text(
    alloc: Global,
    slot: &mut Slot,
    out: &mut [u8],
    needed: &mut usize,
) -> Status
    ensures ok { result ≡ OK → (log : List Entry) × (text : List ℕ) × (slot.old.word.value ≡ Some log) × IsLastText log text × (needed.new ≡ length text) × (out.new ≡ text ++ drop (length text) out.old) }
    ensures room { result ≡ NO_ROOM → (log : List Entry) × (text : List ℕ) × (slot.old.word.value ≡ Some log) × IsLastText log text × (needed.new ≡ length text) × (length out.old < length text) }
    ensures other { result ≢ OK → out.new ≡ out.old }
    ensures same { slot.new.word.value ≡ slot.old.word.value }
    ensures closed { result ≡ CLOSED → slot.old.word.value ≡ None }
    ensures readable { result ≡ OK → (log : List Entry) × (slot.old.word.value ≡ Some log) × IsLastReadable log true }
    ensures unspelled { result ≡ UNSPELLED → (log : List Entry) × (slot.old.word.value ≡ Some log) × IsLastReadable log false }
    ensures answers { result ≢ OK → result ≢ NO_MEMORY → result ≢ NO_ROOM → result ≢ UNSPELLED → result ≡ CLOSED }
    ensures needed { result ≢ OK → result ≢ NO_ROOM → needed.new ≡ 0 }
{
    *needed = 0;
    let Some(session) = slot.take(alloc) else {
        return CLOSED;
    };
    let status = entry_text(alloc, &session, out, needed);
    *slot = Slot::holding(session);
    status
}

/// Frees the driver, if there is one, and closes the slot.
#[unsafe(no_mangle)]
pub extern "C" fn mdb_close(alloc: Global, slot: &mut Slot)
    ensures { slot.new.word.value ≡ None }
{
    slot.close(alloc);
}

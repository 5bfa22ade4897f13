//! The facts of the last entry, and what they name.

ghost use Rattle.std.specs.Prelude.{◌≡◌, ◌≢◌, ◌↔◌, ◌++◌, ◌<◌, ℕ, List, None, Some, IfOk, option_map, string_bytes, length, drop};
ghost use Rattle.mdb_events.specs.FactText.{fact_text};
ghost use Rattle.mdb_events.specs.declared.fact.Fact.{Fact as Told};
ghost use Rattle.mdb_log.specs.declared.log.Entry.{Entry};
ghost use Rattle.mdb_session.specs.Facts.{AreNumbersAt};
ghost use Rattle.mdb_session.specs.Sessions.{IsLast, IsLastFact, LacksFact};
ghost use Rattle.mdb_c.specs.FactParts.{address_at, types_at};

use crate::fact_parts::{TypesNumbers, address_of_fact, types_of_fact};
use crate::given::give;
use mdb_base::OutOfMemory;
use mdb_events::Fact;
use mdb_session::{CLOSED, FactNumbers, NO_ENTRY, NO_MEMORY, NO_ROOM, OK, Slot, Status};
use std::alloc::Global;

/// Tells how many facts the last entry has.
#[unsafe(no_mangle)]
pub extern "C" fn mdb_fact_count(alloc: Global, slot: &mut Slot, count: &mut usize) -> Status
    ensures ok { result ≡ OK → (log : List Entry) × (e : Entry) × (slot.old.word.value ≡ Some log) × IsLast log e × (count.new ≡ length e.facts) }
    ensures other { result ≢ OK → count.new ≡ count.old }
    ensures same { slot.new.word.value ≡ slot.old.word.value }
    ensures closed { (result ≢ OK) ↔ (slot.old.word.value ≡ None) }
    ensures only { result ≢ OK → result ≡ CLOSED }
{
    let Some(session) = slot.take(alloc) else {
        return CLOSED;
    };
    *count = session.last().facts.as_slice().len();
    *slot = Slot::holding(session);
    OK
}

/// Tells the numbers of a fact of the last entry, by its index.
#[unsafe(no_mangle)]
pub extern "C" fn mdb_fact_at(
    alloc: Global,
    slot: &mut Slot,
    index: usize,
    fact: &mut FactNumbers,
) -> Status
    ensures ok { result ≡ OK → (log : List Entry) × (slot.old.word.value ≡ Some log) × AreNumbersAt log index fact.new }
    ensures none { result ≡ NO_ENTRY → (log : List Entry) × (slot.old.word.value ≡ Some log) × LacksFact log index }
    ensures other { result ≢ OK → fact.new ≡ fact.old }
    ensures same { slot.new.word.value ≡ slot.old.word.value }
    ensures closed { (result ≡ CLOSED) ↔ (slot.old.word.value ≡ None) }
    ensures answers { result ≢ OK → result ≢ NO_ENTRY → result ≡ CLOSED }
{
    let Some(session) = slot.take(alloc) else {
        return CLOSED;
    };
    let found = session.fact(index);
    *slot = Slot::holding(session);
    match found {
        Some(numbers) => {
            *fact = numbers;
            OK
        }
        None => NO_ENTRY,
    }
}

/// Writes the text of a fact of the last entry, by its index, to the beginning of `out`, and how long it is to `needed`.
#[unsafe(no_mangle)]
pub extern "C" fn mdb_fact_text(
    alloc: Global,
    slot: &mut Slot,
    index: usize,
    out: &mut [u8],
    needed: &mut usize,
) -> Status
    ensures ok { result ≡ OK → (log : List Entry) × (f : Told) × (slot.old.word.value ≡ Some log) × IsLastFact log index f × (needed.new ≡ length (fact_text f)) × (out.new ≡ fact_text f ++ drop (length (fact_text f)) out.old) }
    ensures room { result ≡ NO_ROOM → (log : List Entry) × (f : Told) × (slot.old.word.value ≡ Some log) × IsLastFact log index f × (needed.new ≡ length (fact_text f)) × (length out.old < length (fact_text f)) }
    ensures none { result ≡ NO_ENTRY → (log : List Entry) × (slot.old.word.value ≡ Some log) × LacksFact log index }
    ensures other { result ≢ OK → out.new ≡ out.old }
    ensures same { slot.new.word.value ≡ slot.old.word.value }
    ensures closed { (result ≡ CLOSED) ↔ (slot.old.word.value ≡ None) }
    ensures answers { result ≢ OK → result ≢ NO_MEMORY → result ≢ NO_ROOM → result ≢ NO_ENTRY → result ≡ CLOSED }
    ensures needed { result ≢ OK → result ≢ NO_ROOM → needed.new ≡ 0 }
{
    *needed = 0;
    let Some(session) = slot.take(alloc) else {
        return CLOSED;
    };
    let room = out.len();
    let told = session.fact_text(alloc, index, out);
    *slot = Slot::holding(session);
    match told {
        Ok(Some(length)) => {
            *needed = length;
            if length <= room { OK } else { NO_ROOM }
        }
        Ok(None) => NO_ENTRY,
        Err(_) => NO_MEMORY,
    }
}

// The text of the address that the fact of this number names.
fn address_at(alloc: Global, facts: &[Fact], index: usize) -> Result<Option<String>, OutOfMemory>
    ensures { IfOk result (λ text. option_map string_bytes text ≡ address_at facts.now index) }
{
    let Some(fact) = facts.get(index) else {
        return Ok(None);
    };
    match address_of_fact(fact) {
        Some(address) => Ok(Some(format!(in alloc; "{address}")?)),
        None => Ok(None),
    }
}

// The types before and after the change that the fact of this number tells of.
fn types_at(facts: &[Fact], index: usize) -> Option<TypesNumbers>
    ensures { result ≡ types_at facts.now index }
{
    match facts.get(index) {
        Some(fact) => types_of_fact(fact),
        None => None,
    }
}

/// Writes the address that a fact of the last entry names to the beginning of `out`, and how long it is to `needed`.
#[unsafe(no_mangle)]
pub extern "C" fn mdb_fact_address(
    alloc: Global,
    slot: &mut Slot,
    index: usize,
    out: &mut [u8],
    needed: &mut usize,
) -> Status
    ensures ok { result ≡ OK → (log : List Entry) × (e : Entry) × (text : List ℕ) × (slot.old.word.value ≡ Some log) × IsLast log e × (address_at e.facts index ≡ Some text) × (needed.new ≡ length text) × (out.new ≡ text ++ drop (length text) out.old) }
    ensures room { result ≡ NO_ROOM → (log : List Entry) × (e : Entry) × (text : List ℕ) × (slot.old.word.value ≡ Some log) × IsLast log e × (address_at e.facts index ≡ Some text) × (needed.new ≡ length text) × (length out.old < length text) }
    ensures none { result ≡ NO_ENTRY → (log : List Entry) × (e : Entry) × (slot.old.word.value ≡ Some log) × IsLast log e × (address_at e.facts index ≡ None) }
    ensures other { result ≢ OK → out.new ≡ out.old }
    ensures same { slot.new.word.value ≡ slot.old.word.value }
    ensures closed { (result ≡ CLOSED) ↔ (slot.old.word.value ≡ None) }
    ensures answers { result ≢ OK → result ≢ NO_MEMORY → result ≢ NO_ROOM → result ≢ NO_ENTRY → result ≡ CLOSED }
    ensures needed { result ≢ OK → result ≢ NO_ROOM → needed.new ≡ 0 }
{
    *needed = 0;
    let Some(session) = slot.take(alloc) else {
        return CLOSED;
    };
    let text = address_at(alloc, session.last().facts.as_slice(), index);
    *slot = Slot::holding(session);
    match text {
        Ok(Some(text)) => give(text.as_str(), out, needed),
        Ok(None) => NO_ENTRY,
        Err(_) => NO_MEMORY,
    }
}

/// Tells the types before and after the change that a fact of the last entry tells of.
#[unsafe(no_mangle)]
pub extern "C" fn mdb_fact_types(
    alloc: Global,
    slot: &mut Slot,
    index: usize,
    types: &mut TypesNumbers,
) -> Status
    ensures ok { result ≡ OK → (log : List Entry) × (e : Entry) × (slot.old.word.value ≡ Some log) × IsLast log e × (types_at e.facts index ≡ Some types.new) }
    ensures none { result ≡ NO_ENTRY → (log : List Entry) × (e : Entry) × (slot.old.word.value ≡ Some log) × IsLast log e × (types_at e.facts index ≡ None) }
    ensures other { result ≢ OK → types.new ≡ types.old }
    ensures same { slot.new.word.value ≡ slot.old.word.value }
    ensures closed { (result ≡ CLOSED) ↔ (slot.old.word.value ≡ None) }
    ensures answers { result ≢ OK → result ≢ NO_ENTRY → result ≡ CLOSED }
{
    let Some(session) = slot.take(alloc) else {
        return CLOSED;
    };
    let found = types_at(session.last().facts.as_slice(), index);
    *slot = Slot::holding(session);
    match found {
        Some(told) => {
            *types = told;
            OK
        }
        None => NO_ENTRY,
    }
}

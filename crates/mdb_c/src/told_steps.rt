//! The steps of a check-out and a check-in, and any line, each with its facts in one call.

ghost use Rattle.std.specs.Prelude.{◌≡◌, ◌≢◌, ◌↔◌, List, None, Some};
ghost use Rattle.mdb_base.specs.declared.address.ServerAddress.{ServerAddress};
ghost use Rattle.mdb_log.specs.declared.log.Entry.{Entry};
ghost use Rattle.mdb_log.specs.declared.step.Act.TheVariants as act;
ghost use Rattle.mdb_log.specs.declared.step.Established.{Established as Made};
ghost use Rattle.mdb_log.specs.declared.step.Step.{Step};
ghost use Rattle.mdb_log.specs.declared.step.Use.{Use as Used};
ghost use Rattle.mdb_lines.specs.Script.{Spells};
ghost use Rattle.mdb_c.specs.Calls.{made_of, use_of};
ghost use Rattle.mdb_session.specs.Sessions.{IsStepped, step_at};
ghost use Rattle.mdb_session.specs.Texts.{IsAddressOf};
ghost use Rattle.mdb_session.specs.Told.{IsTold};

use crate::callers::use_of;
use crate::connections::{EstablishedNumbers, made_of};
use mdb_log::Act;
use mdb_session::{
    At, CLOSED, MALFORMED, NO_MEMORY, OK, Slot, Status, Told, address_in, status_of,
};
use std::alloc::Global;

/// Does the step of `mdb_request`, and tells its facts with the reply.
#[unsafe(no_mangle)]
pub extern "C" fn mdb_request_told(
    alloc: Global,
    slot: &mut Slot,
    at: &At,
    party: u32,
    address: &[u8],
    told: &mut Told,
) -> Status
    ensures ok { result ≡ OK → (a : ServerAddress) × IsAddressOf address.now a × IsStepped slot.old.word.value slot.new.word.value at.now.seat (step_at at.now (act.Request party a)) told.new.reply }
    ensures told { result ≡ OK → (log : List Entry) × (slot.new.word.value ≡ Some log) × IsTold log told.old told.new }
    ensures other { result ≢ OK → (slot.new.word.value ≡ slot.old.word.value) × (told.new ≡ told.old) }
    ensures malformed { result ≡ MALFORMED → (a : ServerAddress) → IsAddressOf address.now a → ⊥ }
    ensures closed { result ≡ CLOSED → slot.old.word.value ≡ None }
    ensures answers { result ≢ OK → result ≢ NO_MEMORY → result ≢ MALFORMED → result ≡ CLOSED }
{
    match address_in(alloc, address) {
        Ok(address) => slot.step_told(alloc, at, Act::Request(party, address), told),
        Err(why) => status_of(why),
    }
}

/// Does the step of `mdb_collect`, and tells its facts with the reply.
#[unsafe(no_mangle)]
pub extern "C" fn mdb_collect_told(
    alloc: Global,
    slot: &mut Slot,
    at: &At,
    party: u32,
    told: &mut Told,
) -> Status
    ensures ok { result ≡ OK → IsStepped slot.old.word.value slot.new.word.value at.now.seat (step_at at.now (act.Collect party)) told.new.reply }
    ensures told { result ≡ OK → (log : List Entry) × (slot.new.word.value ≡ Some log) × IsTold log told.old told.new }
    ensures other { result ≢ OK → (slot.new.word.value ≡ slot.old.word.value) × (told.new ≡ told.old) }
    ensures formed { result ≢ MALFORMED }
    ensures closed { (result ≡ CLOSED) ↔ (slot.old.word.value ≡ None) }
    ensures answers { result ≢ OK → result ≢ NO_MEMORY → result ≡ CLOSED }
{
    slot.step_told(alloc, at, Act::Collect(party), told)
}

/// Does the step of `mdb_return`, and tells its facts with the reply.
#[unsafe(no_mangle)]
pub extern "C" fn mdb_return_told(
    alloc: Global,
    slot: &mut Slot,
    at: &At,
    party: u32,
    used: u32,
    told: &mut Told,
) -> Status
    ensures ok { result ≡ OK → (how : Used) × (use_of used ≡ Some how) × IsStepped slot.old.word.value slot.new.word.value at.now.seat (step_at at.now (act.Return party how)) told.new.reply }
    ensures told { result ≡ OK → (log : List Entry) × (slot.new.word.value ≡ Some log) × IsTold log told.old told.new }
    ensures other { result ≢ OK → (slot.new.word.value ≡ slot.old.word.value) × (told.new ≡ told.old) }
    ensures malformed { (result ≡ MALFORMED) ↔ (use_of used ≡ None) }
    ensures closed { result ≡ CLOSED → slot.old.word.value ≡ None }
    ensures answers { result ≢ OK → result ≢ NO_MEMORY → result ≢ MALFORMED → result ≡ CLOSED }
{
    match use_of(used) {
        Some(how) => slot.step_told(alloc, at, Act::Return(party, how), told),
        None => MALFORMED,
    }
}

/// Does the step of `mdb_established`, and tells its facts with the reply.
#[unsafe(no_mangle)]
pub extern "C" fn mdb_established_told(
    alloc: Global,
    slot: &mut Slot,
    at: &At,
    made: &EstablishedNumbers,
    service: &[u8],
    told: &mut Told,
) -> Status
    ensures ok { result ≡ OK → (e : Made) × (made_of made.now service.now ≡ Some e) × IsStepped slot.old.word.value slot.new.word.value at.now.seat (step_at at.now (act.Established made.now.pool made.now.id e)) told.new.reply }
    ensures told { result ≡ OK → (log : List Entry) × (slot.new.word.value ≡ Some log) × IsTold log told.old told.new }
    ensures other { result ≢ OK → (slot.new.word.value ≡ slot.old.word.value) × (told.new ≡ told.old) }
    ensures malformed { (result ≡ MALFORMED) ↔ (made_of made.now service.now ≡ None) }
    ensures closed { result ≡ CLOSED → slot.old.word.value ≡ None }
    ensures answers { result ≢ OK → result ≢ NO_MEMORY → result ≢ MALFORMED → result ≡ CLOSED }
{
    match made_of(made, service) {
        Some(how) => slot.step_told(alloc, at, Act::Established(made.pool, made.id, how), told),
        None => MALFORMED,
    }
}

/// Does the step of `mdb_line`, and tells its facts with the reply.
#[unsafe(no_mangle)]
pub extern "C" fn mdb_line_told(
    alloc: Global,
    slot: &mut Slot,
    seat: u32,
    line: &[u8],
    told: &mut Told,
) -> Status
    ensures ok { result ≡ OK → (s : Step) × Spells 2 line.now s × IsStepped slot.old.word.value slot.new.word.value seat s told.new.reply }
    ensures told { result ≡ OK → (log : List Entry) × (slot.new.word.value ≡ Some log) × IsTold log told.old told.new }
    ensures other { result ≢ OK → (slot.new.word.value ≡ slot.old.word.value) × (told.new ≡ told.old) }
    ensures malformed { result ≡ MALFORMED → (s : Step) → Spells 2 line.now s → ⊥ }
    ensures closed { result ≡ CLOSED → slot.old.word.value ≡ None }
    ensures answers { result ≢ OK → result ≢ NO_MEMORY → result ≢ MALFORMED → result ≡ CLOSED }
{
    slot.line_told(alloc, seat, line, told)
}

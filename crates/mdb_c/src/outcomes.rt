//! The steps that carry an error, a server's reply, a monitor or a list of hosts, which stay texts.

ghost use Rattle.std.specs.Prelude.{◌≡◌, ◌≢◌, ◌↔◌, None, IfOk, IfErr, string_bytes};
ghost use Rattle.mdb_lines.specs.Script.{Spells};
ghost use Rattle.mdb_log.specs.declared.step.Step.{Step};
ghost use Rattle.mdb_parts.specs.declared.line_error.LineError.TheVariants.{OutOfMemory as NoMemory};
ghost use Rattle.mdb_c.specs.Lines.{error_line, failed_line, hello_line, beaten_line, rtt_line, hosts_line};
ghost use Rattle.mdb_session.specs.Sessions.{IsStepped};

use crate::connections::ConnectionNumbers;
use mdb_lines::LineError;
use mdb_session::{
    At, CLOSED, MALFORMED, NO_MEMORY, OK, ReplyNumbers, Slot, Status, status_of, text_in,
};
use std::alloc::Global;

/// An operation of a party met an error on its connection (SDAM, "Error handling"). `error` is the error as a line has it, as `network msg=reset`.
#[tactic(auto, using(crate::proofs::LineLemmas::error_printable))]
#[unsafe(no_mangle)]
pub extern "C" fn mdb_error(
    alloc: Global,
    slot: &mut Slot,
    at: &At,
    party: u32,
    error: &[u8],
    reply: &mut ReplyNumbers,
) -> Status
    ensures ok { result ≡ OK → (s : Step) × Spells 2 (error_line at.now party error.now) s × IsStepped slot.old.word.value slot.new.word.value at.now.seat s reply.new }
    ensures other { result ≢ OK → (slot.new.word.value ≡ slot.old.word.value) × (reply.new ≡ reply.old) }
    ensures malformed { result ≡ MALFORMED → (s : Step) → Spells 2 (error_line at.now party error.now) s → ⊥ }
    ensures closed { result ≡ CLOSED → slot.old.word.value ≡ None }
    ensures answers { result ≢ OK → result ≢ NO_MEMORY → result ≢ MALFORMED → result ≡ CLOSED }
{
    let Some(error) = text_in(error) else {
        return MALFORMED;
    };
    let moment = at.moment;
    match format!(in alloc; "error {moment} {party} {error}") {
        Ok(line) => slot.line(alloc, at.seat, line.as_bytes(), reply),
        Err(_) => NO_MEMORY,
    }
}

/// A pending connection failed (CMAP, "Establishing a Connection"). `outcome` is what a line has behind the connection: `pre ERROR` before the
/// server's hello, and after it `post ERROR`, or `post sid=ID ERROR` where it named a service.
#[tactic(auto, using(crate::proofs::LineLemmas::failed_printable))]
#[unsafe(no_mangle)]
pub extern "C" fn mdb_failed(
    alloc: Global,
    slot: &mut Slot,
    at: &At,
    connection: &ConnectionNumbers,
    outcome: &[u8],
    reply: &mut ReplyNumbers,
) -> Status
    ensures ok { result ≡ OK → (s : Step) × Spells 2 (failed_line at.now connection.now outcome.now) s × IsStepped slot.old.word.value slot.new.word.value at.now.seat s reply.new }
    ensures other { result ≢ OK → (slot.new.word.value ≡ slot.old.word.value) × (reply.new ≡ reply.old) }
    ensures malformed { result ≡ MALFORMED → (s : Step) → Spells 2 (failed_line at.now connection.now outcome.now) s → ⊥ }
    ensures closed { result ≡ CLOSED → slot.old.word.value ≡ None }
    ensures answers { result ≢ OK → result ≢ NO_MEMORY → result ≢ MALFORMED → result ≡ CLOSED }
{
    let Some(outcome) = text_in(outcome) else {
        return MALFORMED;
    };
    let moment = at.moment;
    let pool = connection.pool;
    let id = connection.id;
    match format!(in alloc; "failed {moment} {pool} {id} {outcome}") {
        Ok(line) => slot.line(alloc, at.seat, line.as_bytes(), reply),
        Err(_) => NO_MEMORY,
    }
}

/// What the hello of a monitor came to (SDAM, "Updating the TopologyDescription"). `monitor` is the address and the number of the pool that it was
/// begun for, as `a:27017 0`, and `outcome` what a line has behind it: `ok rtt=NANOSECONDS FIELD=VALUE ..` or `err ERROR`.
#[tactic(auto, using(crate::proofs::LineLemmas::hello_monitor, crate::proofs::LineLemmas::hello_outcome))]
#[unsafe(no_mangle)]
pub extern "C" fn mdb_hello(
    alloc: Global,
    slot: &mut Slot,
    at: &At,
    monitor: &[u8],
    outcome: &[u8],
    reply: &mut ReplyNumbers,
) -> Status
    ensures ok { result ≡ OK → (s : Step) × Spells 2 (hello_line at.now monitor.now outcome.now) s × IsStepped slot.old.word.value slot.new.word.value at.now.seat s reply.new }
    ensures other { result ≢ OK → (slot.new.word.value ≡ slot.old.word.value) × (reply.new ≡ reply.old) }
    ensures malformed { result ≡ MALFORMED → (s : Step) → Spells 2 (hello_line at.now monitor.now outcome.now) s → ⊥ }
    ensures closed { result ≡ CLOSED → slot.old.word.value ≡ None }
    ensures answers { result ≢ OK → result ≢ NO_MEMORY → result ≢ MALFORMED → result ≡ CLOSED }
{
    let Some(monitor) = text_in(monitor) else {
        return MALFORMED;
    };
    let Some(outcome) = text_in(outcome) else {
        return MALFORMED;
    };
    let moment = at.moment;
    match format!(in alloc; "hello {moment} {monitor} {outcome}") {
        Ok(line) => slot.line(alloc, at.seat, line.as_bytes(), reply),
        Err(_) => NO_MEMORY,
    }
}

// The line of a check that ended.
#[tactic(auto, using(crate::proofs::LineLemmas::beaten_monitor, crate::proofs::LineLemmas::beaten_outcome))]
pub(crate) fn end_of_check(
    alloc: Global,
    at: &At,
    monitor: &[u8],
    outcome: &[u8],
) -> Result<String, LineError>
    ensures ok { IfOk result (λ line. string_bytes line ≡ beaten_line at.now monitor.now outcome.now) }
    ensures only { (s : Step) → Spells 2 (beaten_line at.now monitor.now outcome.now) s → IfErr result (λ e. e ≡ NoMemory) }
{
    let Some(monitor) = text_in(monitor) else {
        return Err(LineError::Bad);
    };
    let Some(outcome) = text_in(outcome) else {
        return Err(LineError::Bad);
    };
    let moment = at.moment;
    Ok(format!(in alloc; "beaten {moment} {monitor} {outcome}")?)
}

/// The check of a monitor ended (SDAM monitoring, "ServerHeartbeatSucceededEvent"). `monitor` is as for a hello, and `outcome` what a line has behind
/// it: its nanoseconds, and then `ok FIELD=VALUE ..`, `err ERROR` or `cancelled ERROR`.
#[unsafe(no_mangle)]
pub extern "C" fn mdb_beaten(
    alloc: Global,
    slot: &mut Slot,
    at: &At,
    monitor: &[u8],
    outcome: &[u8],
    reply: &mut ReplyNumbers,
) -> Status
    ensures ok { result ≡ OK → (s : Step) × Spells 2 (beaten_line at.now monitor.now outcome.now) s × IsStepped slot.old.word.value slot.new.word.value at.now.seat s reply.new }
    ensures other { result ≢ OK → (slot.new.word.value ≡ slot.old.word.value) × (reply.new ≡ reply.old) }
    ensures malformed { result ≡ MALFORMED → (s : Step) → Spells 2 (beaten_line at.now monitor.now outcome.now) s → ⊥ }
    ensures closed { result ≡ CLOSED → slot.old.word.value ≡ None }
    ensures answers { result ≢ OK → result ≢ NO_MEMORY → result ≢ MALFORMED → result ≡ CLOSED }
{
    match end_of_check(alloc, at, monitor, outcome) {
        Ok(line) => slot.line(alloc, at.seat, line.as_bytes(), reply),
        Err(why) => status_of(why),
    }
}

/// A round trip was measured beside the checks of a monitor (SDAM monitoring, "Measuring RTT"), in nanoseconds. `monitor` is as for a hello.
#[tactic(auto, using(crate::proofs::LineLemmas::rtt_printable))]
#[unsafe(no_mangle)]
pub extern "C" fn mdb_rtt(
    alloc: Global,
    slot: &mut Slot,
    at: &At,
    monitor: &[u8],
    nanos: u64,
    reply: &mut ReplyNumbers,
) -> Status
    ensures ok { result ≡ OK → (s : Step) × Spells 2 (rtt_line at.now monitor.now nanos) s × IsStepped slot.old.word.value slot.new.word.value at.now.seat s reply.new }
    ensures other { result ≢ OK → (slot.new.word.value ≡ slot.old.word.value) × (reply.new ≡ reply.old) }
    ensures malformed { result ≡ MALFORMED → (s : Step) → Spells 2 (rtt_line at.now monitor.now nanos) s → ⊥ }
    ensures closed { result ≡ CLOSED → slot.old.word.value ≡ None }
    ensures answers { result ≢ OK → result ≢ NO_MEMORY → result ≢ MALFORMED → result ≡ CLOSED }
{
    let Some(monitor) = text_in(monitor) else {
        return MALFORMED;
    };
    let moment = at.moment;
    match format!(in alloc; "rtt {moment} {monitor} {nanos}") {
        Ok(line) => slot.line(alloc, at.seat, line.as_bytes(), reply),
        Err(_) => NO_MEMORY,
    }
}

/// DNS names these servers now ("Polling SRV Records for mongos Discovery"). `hosts` is as a line has them: 1 to 128 different addresses with their ports, and commas between them.
#[tactic(auto, using(crate::proofs::LineLemmas::hosts_printable))]
#[unsafe(no_mangle)]
pub extern "C" fn mdb_hosts(
    alloc: Global,
    slot: &mut Slot,
    at: &At,
    hosts: &[u8],
    reply: &mut ReplyNumbers,
) -> Status
    ensures ok { result ≡ OK → (s : Step) × Spells 2 (hosts_line at.now hosts.now) s × IsStepped slot.old.word.value slot.new.word.value at.now.seat s reply.new }
    ensures other { result ≢ OK → (slot.new.word.value ≡ slot.old.word.value) × (reply.new ≡ reply.old) }
    ensures malformed { result ≡ MALFORMED → (s : Step) → Spells 2 (hosts_line at.now hosts.now) s → ⊥ }
    ensures closed { result ≡ CLOSED → slot.old.word.value ≡ None }
    ensures answers { result ≢ OK → result ≢ NO_MEMORY → result ≢ MALFORMED → result ≡ CLOSED }
{
    let Some(hosts) = text_in(hosts) else {
        return MALFORMED;
    };
    let moment = at.moment;
    match format!(in alloc; "hosts {moment} {hosts}") {
        Ok(line) => slot.line(alloc, at.seat, line.as_bytes(), reply),
        Err(_) => NO_MEMORY,
    }
}
